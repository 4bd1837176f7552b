//! The call of the program, as a caller in C makes it.
use crate::run::vortex_run;

#[test]
fn a_text_is_answered(rt: HostRuntime) {
    let mut output = [0u8; 12];
    let mut len = 0;
    let status = vortex_run(rt.alloc(), b"", &mut output, &mut len);
    assert_eq!(rt; status, 2);
    assert!(rt; &output == b"line 1: bad\n");
}

#[test]
fn an_answer_that_is_too_long_is_left(rt: HostRuntime) {
    let mut output = [7u8; 3];
    let mut len = 0;
    let status = vortex_run(rt.alloc(), b"", &mut output, &mut len);
    assert_eq!(rt; status, 3);
    assert_eq!(rt; len, 12);
    assert!(rt; output == [7, 7, 7]);
}
