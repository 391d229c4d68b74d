//! Frames that lines give.

use super::interfaces::SHORT;
use super::{AAPCS32, I386, MS64, Played, SYSV64, play_all};

const PLAYED: [Played; 4] = [
    Played {
        name: "a frame, and what is left free of it",
        idl: SHORT,
        words: SYSV64,
        script: b"\
object o nsIE
enter o nsIE.sh rsi=deadbeefcafe8001 r9=7 xmm0=5
enter o nsIE.sh rsi=8001
",
        transcript: b"\
> object o nsIE
at 107d0
> enter o nsIE.sh rsi=deadbeefcafe8001 r9=7 xmm0=5
slot 3 entry 1030
got -32767
result 80004001
> enter o nsIE.sh rsi=8001
slot 3 entry 1030
got -32767
result 80004001
",
    },
    Played {
        name: "a frame of bytes",
        idl: SHORT,
        words: I386,
        script: b"\
object o nsIE
enter o nsIE.sh stack=018000
enter o nsIE.sh stack=0180aabb
",
        transcript: b"\
> object o nsIE
at 103f0
> enter o nsIE.sh stack=018000
refused frame 8 7
> enter o nsIE.sh stack=0180aabb
slot 3 entry 1030
got -32767
result 80004001
",
    },
    Played {
        name: "a frame that is too short, and one that is not",
        idl: SHORT,
        words: AAPCS32,
        script: b"\
object o nsIE
enter o nsIE.sh
enter o nsIE.sh stack=0180aabb1122334455667788
",
        transcript: b"\
> object o nsIE
at 103f0
> enter o nsIE.sh
refused frame 16 4
> enter o nsIE.sh stack=0180aabb1122334455667788
slot 3 entry 1030
got -32767
result 80004001
",
    },
    Played {
        name: "a frame that lacks the room for registers",
        idl: SHORT,
        words: MS64,
        script: b"\
object o nsIE
enter o nsIE.sh
",
        transcript: b"\
> object o nsIE
at 107d0
> enter o nsIE.sh
refused frame 32 0
",
    },
];

#[test]
fn frames_come_to_their_transcripts(rt: HostRuntime) {
    play_all(&rt, rt.alloc(), &PLAYED);
}
