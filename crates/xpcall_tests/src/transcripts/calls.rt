//! Calls: where arguments are placed, and which methods are called.

use super::interfaces::{ADD, CONTEXT, HIDDEN, MIX, PAD, PICK, SEVEN};
use super::{AAPCS32, AAPCS64, I386, MS64, Played, SYSV64, play_all};

const PLAYED: [Played; 13] = [
    Played {
        name: "a sum that comes out",
        idl: ADD,
        words: SYSV64,
        script: b"\
object o nsIT
reply o nsIT.add a2=$a0+$a1
call o nsIT.add 2 -1 ->s
",
        transcript: b"\
> object o nsIT
at 107d0
> reply o nsIT.add a2=$a0+$a1
ok
> call o nsIT.add 2 -1 ->s
slot 3 entry 1030
gpr 107d0 2 ffffffffffffffff 40000010 0 0
fpr 0 0 0 0 0 0 0 0
stack -
got 2 -1 0x40000010
result 00000000
out 2 1
",
    },
    Played {
        name: "the same on a stack of words of 4 bytes",
        idl: ADD,
        words: I386,
        script: b"\
object o nsIT
reply o nsIT.add a2=$a0+$a1
call o nsIT.add 2 -1 ->s
",
        transcript: b"\
> object o nsIT
at 103f0
> reply o nsIT.add a2=$a0+$a1
ok
> call o nsIT.add 2 -1 ->s
slot 3 entry 1030
gpr -
fpr -
stack f003010002000000ffffffff10000040
got 2 -1 0x40000010
result 00000000
out 2 1
",
    },
    Played {
        name: "the same in eight registers",
        idl: ADD,
        words: AAPCS64,
        script: b"\
object o nsIT
reply o nsIT.add a2=$a0+$a1
call o nsIT.add 2 -1 ->s
",
        transcript: b"\
> object o nsIT
at 107d0
> reply o nsIT.add a2=$a0+$a1
ok
> call o nsIT.add 2 -1 ->s
slot 3 entry 1030
gpr 107d0 2 ffffffffffffffff 40000010 0 0 0 0
fpr 0 0 0 0 0 0 0 0
stack -
got 2 -1 0x40000010
result 00000000
out 2 1
",
    },
    Played {
        name: "the same in four registers, behind room for them",
        idl: ADD,
        words: MS64,
        script: b"\
object o nsIT
reply o nsIT.add a2=$a0+$a1
call o nsIT.add 2 -1 ->s
",
        transcript: b"\
> object o nsIT
at 107d0
> reply o nsIT.add a2=$a0+$a1
ok
> call o nsIT.add 2 -1 ->s
slot 3 entry 1030
gpr 107d0 2 ffffffffffffffff 40000010
fpr 0 0 0 0
stack 0000000000000000000000000000000000000000000000000000000000000000
got 2 -1 0x40000010
result 00000000
out 2 1
",
    },
    Played {
        name: "seven parameters",
        idl: SEVEN,
        words: SYSV64,
        script: b"\
object o nsIA
call o nsIA.seven 1 2 3 4 5 6 7
",
        transcript: b"\
> object o nsIA
at 107d0
> call o nsIA.seven 1 2 3 4 5 6 7
slot 0 entry 1000
gpr 107d0 1 2 3 4 5
fpr 0 0 0 0 0 0 0 0
stack 06000000000000000700000000000000
got 1 2 3 4 5 6 7
result 80004001
",
    },
    Played {
        name: "doubles past the registers",
        idl: MIX,
        words: SYSV64,
        script: b"\
object o nsIM
call o nsIM.mix 0x1 0x2 7 0x3 0x4 0x5 0x6 0x7 0x8 0x9
",
        transcript: b"\
> object o nsIM
at 107d0
> call o nsIM.mix 0x1 0x2 7 0x3 0x4 0x5 0x6 0x7 0x8 0x9
slot 0 entry 1000
gpr 107d0 7 0 0 0 0
fpr 1 2 3 4 5 6 7 8
stack 0900000000000000
got 0x1 0x2 7 0x3 0x4 0x5 0x6 0x7 0x8 0x9
result 80004001
",
    },
    Played {
        name: "doubles in four registers",
        idl: MIX,
        words: MS64,
        script: b"\
object o nsIM
call o nsIM.mix 0x1 0x2 7 0x3 0x4 0x5 0x6 0x7 0x8 0x9
",
        transcript: b"\
> object o nsIM
at 107d0
> call o nsIM.mix 0x1 0x2 7 0x3 0x4 0x5 0x6 0x7 0x8 0x9
slot 0 entry 1000
gpr 107d0 0 0 7
fpr 0 1 2 0
stack 0000000000000000000000000000000000000000000000000000000000000000\
0300000000000000040000000000000005000000000000000600000000000000\
070000000000000008000000000000000900000000000000
got 0x1 0x2 7 0x3 0x4 0x5 0x6 0x7 0x8 0x9
result 80004001
",
    },
    Played {
        name: "no padding",
        idl: PAD,
        words: I386,
        script: b"\
object o nsID
call o nsID.pad -2 1 255
",
        transcript: b"\
> object o nsID
at 103f0
> call o nsID.pad -2 1 255
slot 0 entry 1000
gpr -
fpr -
stack f0030100feffffffffffffff01000000ff000000
got -2 1 255
result 80004001
",
    },
    Played {
        name: "padding",
        idl: PAD,
        words: AAPCS32,
        script: b"\
object o nsID
call o nsID.pad -2 1 255
",
        transcript: b"\
> object o nsID
at 103f0
> call o nsID.pad -2 1 255
slot 0 entry 1000
gpr -
fpr -
stack f003010000000000feffffffffffffff01000000ff000000
got -2 1 255
result 80004001
",
    },
    Played {
        name: "a hidden method",
        idl: HIDDEN,
        words: SYSV64,
        script: b"\
object o nsIH
call o nsIH.h
call o nsIH.q
call o nsISupports.AddRef
",
        transcript: b"\
> object o nsIH
at 107d0
> call o nsIH.h
refused hidden
> call o nsIH.q
slot 5 entry 1050
gpr 107d0 0 0 0 0 0
fpr 0 0 0 0 0 0 0 0
stack -
got -
result 80004001
> call o nsISupports.AddRef
refused hidden
",
    },
    Played {
        name: "the count of optional parameters",
        idl: PICK,
        words: SYSV64,
        script: b"\
object o nsIO
reply o nsIO.pick a4=$a3
call o nsIO.pick 5 6 _ ->r
",
        transcript: b"\
> object o nsIO
at 107d0
> reply o nsIO.pick a4=$a3
ok
> call o nsIO.pick 5 6 _ ->r
slot 3 entry 1030
gpr 107d0 5 6 0 1 40000020
fpr 0 0 0 0 0 0 0 0
stack -
got 5 6 0 1 0x40000020
result 00000000
out 4 1
",
    },
    Played {
        name: "a context",
        idl: CONTEXT,
        words: SYSV64,
        script: b"\
data c 00
object o nsIC
context @c
reply o nsIC.ctx a4=$a3
call o nsIC.ctx 5 6 ->r
call o nsIC.set:x 7
",
        transcript: b"\
> data c 00
at 107d0
> object o nsIC
at 107e0
> context @c
ok
> reply o nsIC.ctx a4=$a3
ok
> call o nsIC.ctx 5 6 ->r
slot 3 entry 1030
gpr 107e0 5 6 107d0 1 40000020
fpr 0 0 0 0 0 0 0 0
stack -
got 5 6 0x107d0 1 0x40000020
result 00000000
out 4 1
> call o nsIC.set:x 7
slot 5 entry 1050
gpr 107e0 107d0 7 0 0 0
fpr 0 0 0 0 0 0 0 0
stack -
got 0x107d0 7
result 80004001
",
    },
    Played {
        name: "a context that is no address",
        idl: CONTEXT,
        words: I386,
        script: b"\
context 4294967296
context $v
",
        transcript: b"\
> context 4294967296
refused range 0
> context $v
refused no name
",
    },
];

#[test]
fn calls_come_to_their_transcripts(rt: HostRuntime) {
    play_all(&rt, rt.alloc(), &PLAYED);
}
