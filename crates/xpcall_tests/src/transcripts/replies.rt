//! Replies: what comes out of a call, and what they leave in memory.

use super::interfaces::{ADD, FLAG, LIST, PART, TITLE};
use super::{Played, SYSV64, play_all};

const PLAYED: [Played; 7] = [
    Played {
        name: "a reply with a result, and another",
        idl: ADD,
        words: SYSV64,
        script: b"\
object o nsIT
reply o nsIT.add a2=7 result=80004005
call o nsIT.add 1 2 ->s
show $s
reply o nsIT.add a2=7
call o nsIT.add 1 2 ->s
",
        transcript: b"\
> object o nsIT
at 107d0
> reply o nsIT.add a2=7 result=80004005
ok
> call o nsIT.add 1 2 ->s
slot 3 entry 1030
gpr 107d0 1 2 40000010 0 0
fpr 0 0 0 0 0 0 0 0
stack -
got 1 2 0x40000010
result 80004005
out 2 7
> show $s
7
> reply o nsIT.add a2=7
ok
> call o nsIT.add 1 2 ->s
slot 3 entry 1030
gpr 107d0 1 2 40000010 0 0
fpr 0 0 0 0 0 0 0 0
stack -
got 1 2 0x40000010
result 00000000
out 2 7
",
    },
    Played {
        name: "bytes for a string",
        idl: TITLE,
        words: SYSV64,
        script: b"\
data b 00000000
object o nsIS
reply o nsIS.get:title [a0+1]=4142
call o nsIS.get:title @b
show b
",
        transcript: b"\
> data b 00000000
at 107d0
> object o nsIS
at 107e0
> reply o nsIS.get:title [a0+1]=4142
ok
> call o nsIS.get:title @b
slot 3 entry 1030
gpr 107e0 107d0 0 0 0 0
fpr 0 0 0 0 0 0 0 0
stack -
got 0x107d0
result 00000000
> show b
00414200
",
    },
    Played {
        name: "an array that comes out",
        idl: LIST,
        words: SYSV64,
        script: b"\
data buf 0100feff0300
object o nsIL
reply o nsIL.list a0=3 a1=@buf
call o nsIL.list ->n ->v
",
        transcript: b"\
> data buf 0100feff0300
at 107d0
> object o nsIL
at 107e0
> reply o nsIL.list a0=3 a1=@buf
ok
> call o nsIL.list ->n ->v
slot 3 entry 1030
gpr 107e0 40000000 40000008 0 0 0
fpr 0 0 0 0 0 0 0 0
stack -
got 0x40000000 0x40000008
result 00000000
out 0 3
out 1 0x107d0 [1 -2 3]
",
    },
    Played {
        name: "an object that is asked for by its interface",
        idl: ADD,
        words: SYSV64,
        script: b"\
data i iid 01020304-0506-0708-090a-0b0c0d0e0f10
object o nsIT
reply o nsISupports.QueryInterface a1=@o
call o nsISupports.QueryInterface @i ->p
call $p nsIT.add 1 1 ->s
show i
",
        transcript: b"\
> data i iid 01020304-0506-0708-090a-0b0c0d0e0f10
at 107d0
> object o nsIT
at 107e0
> reply o nsISupports.QueryInterface a1=@o
ok
> call o nsISupports.QueryInterface @i ->p
slot 0 entry 1000
gpr 107e0 107d0 40000008 0 0 0
fpr 0 0 0 0 0 0 0 0
stack -
got 0x107d0 0x40000008
result 00000000
out 1 0x107e0 nsIT
> call $p nsIT.add 1 1 ->s
slot 3 entry 1030
gpr 107e0 1 1 40000010 0 0
fpr 0 0 0 0 0 0 0 0
stack -
got 1 1 0x40000010
result 80004001
out 2 0
> show i
0403020106050807090a0b0c0d0e0f10
",
    },
    Played {
        name: "a reply by memory",
        idl: FLAG,
        words: SYSV64,
        script: b"\
data d 1122334455667788
object o nsIB
reply o nsIB.b8 a0=1
enter o nsIB.b8 rsi=107d1
show d
enter o nsIB.b8 rsi=107d8
show d
",
        transcript: b"\
> data d 1122334455667788
at 107d0
> object o nsIB
at 107e0
> reply o nsIB.b8 a0=1
ok
> enter o nsIB.b8 rsi=107d1
slot 3 entry 1030
got 0x107d1
result 00000000
> show d
1101334455667788
> enter o nsIB.b8 rsi=107d8
slot 3 entry 1030
got 0x107d8
result 80004003
> show d
1101334455667788
",
    },
    Played {
        name: "a part of an array",
        idl: PART,
        words: SYSV64,
        script: b"\
data buf 0100feff0300
object o nsIP
reply o nsIP.part a1=2 a2=@buf
call o nsIP.part 3 ->m ->v
",
        transcript: b"\
> data buf 0100feff0300
at 107d0
> object o nsIP
at 107e0
> reply o nsIP.part a1=2 a2=@buf
ok
> call o nsIP.part 3 ->m ->v
slot 3 entry 1030
gpr 107e0 3 40000008 40000010 0 0
fpr 0 0 0 0 0 0 0 0
stack -
got 3 0x40000008 0x40000010
result 00000000
out 1 2
out 2 0x107d0 [1 -2]
",
    },
    Played {
        name: "more than all of an array",
        idl: PART,
        words: SYSV64,
        script: b"\
data buf 0100feff0300
object o nsIP
reply o nsIP.part a1=4 a2=@buf
call o nsIP.part 3 ->m ->v
",
        transcript: b"\
> data buf 0100feff0300
at 107d0
> object o nsIP
at 107e0
> reply o nsIP.part a1=4 a2=@buf
ok
> call o nsIP.part 3 ->m ->v
slot 3 entry 1030
gpr 107e0 3 40000008 40000010 0 0
fpr 0 0 0 0 0 0 0 0
stack -
got 3 0x40000008 0x40000010
result 00000000
out 1 4
out 2 0x107d0 [?]
",
    },
];

#[test]
fn replies_come_to_their_transcripts(rt: HostRuntime) {
    play_all(&rt, rt.alloc(), &PLAYED);
}
