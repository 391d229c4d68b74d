//! Proxies and bridges.

use super::interfaces::{ADD, SHORT};
use super::{I386, Played, SYSV64, play_all};

const PLAYED: [Played; 5] = [
    Played {
        name: "a proxy",
        idl: ADD,
        words: SYSV64,
        script: b"\
object o nsIT
reply o nsIT.add a2=$a0+$a1
proxy p o
call p nsIT.add 2 -1 ->s
",
        transcript: b"\
> object o nsIT
at 107d0
> reply o nsIT.add a2=$a0+$a1
ok
> proxy p o
at 107e0
> call p nsIT.add 2 -1 ->s
slot 3 entry 1030
gpr 107e0 2 ffffffffffffffff 40000010 0 0
fpr 0 0 0 0 0 0 0 0
stack -
got 2 -1 0x40000010
slot 3 entry 1030
gpr 107d0 2 ffffffffffffffff 40000010 0 0
fpr 0 0 0 0 0 0 0 0
stack -
got 2 -1 0x40000010
result 00000000
out 2 1
",
    },
    Played {
        name: "a bridge",
        idl: SHORT,
        words: SYSV64,
        script: b"\
object o nsIE
bridge q o aapcs64
enter q nsIE.sh rsi=deadbeefcafe8001 r9=7
",
        transcript: b"\
> object o nsIE
at 107d0
> bridge q o aapcs64
at 107e0
> enter q nsIE.sh rsi=deadbeefcafe8001 r9=7
slot 3 entry 1030
got -32767
slot 3 entry 1030
gpr 107d0 ffffffffffff8001 0 0 0 0 0 0
fpr 0 0 0 0 0 0 0 0
stack -
got -32767
result 80004001
",
    },
    Played {
        name: "too many proxies",
        idl: ADD,
        words: SYSV64,
        script: b"\
object o nsIT
proxy p1 o
proxy p2 p1
proxy p3 p2
proxy p4 p3
proxy p5 p4
proxy p6 p5
proxy p7 p6
proxy p8 p7
proxy p9 p8
proxy p10 p9
proxy p11 p10
proxy p12 p11
proxy p13 p12
proxy p14 p13
proxy p15 p14
proxy p16 p15
proxy p17 p16
",
        transcript: b"\
> object o nsIT
at 107d0
> proxy p1 o
at 107e0
> proxy p2 p1
at 107f0
> proxy p3 p2
at 10800
> proxy p4 p3
at 10810
> proxy p5 p4
at 10820
> proxy p6 p5
at 10830
> proxy p7 p6
at 10840
> proxy p8 p7
at 10850
> proxy p9 p8
at 10860
> proxy p10 p9
at 10870
> proxy p11 p10
at 10880
> proxy p12 p11
at 10890
> proxy p13 p12
at 108a0
> proxy p14 p13
at 108b0
> proxy p15 p14
at 108c0
> proxy p16 p15
at 108d0
> proxy p17 p16
refused depth
",
    },
    Played {
        name: "a reply of a proxy",
        idl: ADD,
        words: SYSV64,
        script: b"\
object o nsIT
proxy p o
reply p nsIT.add a2=1
",
        transcript: b"\
> object o nsIT
at 107d0
> proxy p o
at 107e0
> reply p nsIT.add a2=1
refused proxy
",
    },
    Played {
        name: "a bridge between words",
        idl: SHORT,
        words: I386,
        script: b"\
object o nsIE
bridge q o aapcs64
",
        transcript: b"\
> object o nsIE
at 103f0
> bridge q o aapcs64
refused word
",
    },
];

#[test]
fn forwarders_come_to_their_transcripts(rt: HostRuntime) {
    play_all(&rt, rt.alloc(), &PLAYED);
}
