// A part of the listing in a text of fixed capacity.
use super::*;
use arrayvec::ArrayString;
use listing::start;
use slots::SLOTS;

// The bundle of document 01's case 3: the frame of its case 2 and then that of its case 1.
const BUNDLE: &[u8] =
    b"\x00\x1fDRY\x00\x02\x03\0\0\0\0\0\0\x1c\x85\0\0\0\0\0\0\0\x08\0\0\0\0\0\0\x1c\x84\x00\
    \x00\x19DRY\x00\x02\x03\0\0\0\0\0\0\x1c\x84\0\0\0\0\0\0\0\0\x02OK";

#[test]
fn a_part_in_a_text_of_fixed_capacity(rt: HostRuntime) {
    let mut state = State {
        own: 0,
        time: 0,
        high: &mut 0,
        marks: &mut [0u64; 64],
        barrier: &mut [0u64; 64],
        floor: &mut 0,
    };
    let mut list = Waiting {
        count: &mut 0,
        slots: &mut [0u8; SLOTS],
    };
    let mut text = ArrayString::<16384>::new();
    text.push_str("what stood there");
    let next = list_part(&mut state, &mut list, BUNDLE, start(), &mut text);
    assert!(rt; next.is_none());
    assert_eq!(rt;
        text.as_str(),
        "frame 1 taken\nframe 2 taken\nhand 3 7300 4f4b\nhand 3 7301 -\nend\n"
    );
}
