//! A writer that colours words, at its end.

use bully_paint::Painted;
use std::io::Write;

// What is out after these bytes, once the writer is gone: it holds back what may become a word with a colour.
const ENDS: [(&str, &str); 4] = [
    ("node 1: Norm", "node 1: Norm"),
    ("node 1: normal", "node 1: \x1b[32mnormal\x1b[0m"),
    ("the ", "the "),
    ("normal,", "\x1b[32mnormal\x1b[0m,"),
];

#[test]
fn what_is_held_back_goes_out_at_a_drop(rt: HostRuntime) {
    for (text, out) in ENDS {
        let mut output = Vec::new(rt.alloc());
        let mut painted = Painted::new(&mut output, true);
        let is_written = painted.write_all(text.as_bytes()).is_ok();
        drop(painted);
        assert!(rt; is_written, "{text}");
        assert_eq!(rt; output.as_slice(), out.as_bytes(), "{text}");
    }
}
