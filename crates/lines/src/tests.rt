// Lines behind a text of fixed capacity.
use super::*;
use arrayvec::ArrayString;

// A frame that is refused, one that is taken, and the log record of document 01's case 1.
#[test]
fn lines_behind_a_text_of_fixed_capacity(rt: HostRuntime) {
    let mut output = [0u8; 42];
    output[0] = 3;
    output[7] = 0x1c;
    output[8] = 0x84;
    output[9] = 2;
    output[10] = 0x4f;
    output[11] = 0x4b;
    let mut text = ArrayString::<256>::new();
    put_frame_line(&mut text, 1, Some(Refusal::FrameShort));
    put_frame_line(&mut text, 2, None);
    put_hand_lines(&mut text, &output, 1);
    assert_eq!(rt;
        text.as_str(),
        "frame 1 1\nframe 2 taken\nhand 3 7300 4f4b\n"
    );
}
