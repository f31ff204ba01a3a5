// Steps of the listing behind a text of fixed capacity: of a bundle of one frame, which has no bytes, and of
// one of none.
use super::*;
use arrayvec::ArrayString;
use slots::SLOTS;

#[test]
fn a_step_behind_a_text_of_fixed_capacity(rt: HostRuntime) {
    let mut state = State {
        own: 0,
        time: 0,
        high: &mut 0,
        marks: &mut [0u64; 64],
        barrier: &mut [0u64; 64],
        floor: &mut 0,
    };
    let mut list = Waiting {
        count: &mut 0,
        slots: &mut [0u8; SLOTS],
    };
    let mut text = ArrayString::<4112>::new();
    text.push_str("> ");
    let next = list_next(&mut state, &mut list, b"\0\0", start(), &mut text);
    assert_eq!(rt; text.as_str(), "> frame 1 1\n");
    assert_eq!(rt; next.map(|next| (next.place, next.frames)), Some((2, 1)));
    let mut text = ArrayString::<4096>::new();
    let last = list_next(&mut state, &mut list, b"", start(), &mut text);
    assert_eq!(rt; text.as_str(), "end\n");
    assert!(rt; last.is_none());
}
