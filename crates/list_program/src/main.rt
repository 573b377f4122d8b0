// A program: the edge listing of standard input. A failure is told on standard error, and `./edge-list` gives it an exit status.
#![tactic(auto)]

use list_reading::listed;
use list_text::Text;

const NO_END: usize = 0xFFFF_FFFF_FFFF_FFFF;

const PART: usize = 65536;

fn main(rt: HostRuntime) {
    let mut script = [0u8; 131072];
    let mut text = Text {
        bytes: [0u8; 393255],
        len: 0,
    };
    let r = listed(&mut rt.reader(), NO_END, PART, &mut script, &mut text);
    if r.failed {
        let _ = rt.eprintln("edge-list: a read failed");
        return;
    }
    if rt.write_all(&text.bytes[..text.len]).is_err() {
        let _ = rt.eprintln("edge-list: a write failed");
    }
}
