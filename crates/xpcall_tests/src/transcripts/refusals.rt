//! Lines that are refused.

use super::interfaces::ADD;
use super::{Played, SYSV64, play_all};

const PLAYED: [Played; 3] = [
    Played {
        name: "refusals",
        idl: ADD,
        words: SYSV64,
        script: b"\
object o nsIT
reply o nsIT.add a2=$a0+$a1
call o nsIT.add 2 -1 ->s
call $s nsIT.add 1 1 ->t
show $s
call o nsIT.add 1 ->s
call o nsIT.add 1 ->x ->s
call o nsIT.add 1 2147483648 ->s
call z nsIT.add 1 1 ->s
object o nsIT
object p nsISupports
call p nsIT.add 1 1 ->s
",
        transcript: b"\
> object o nsIT
at 107d0
> reply o nsIT.add a2=$a0+$a1
ok
> call o nsIT.add 2 -1 ->s
slot 3 entry 1030
gpr 107d0 2 ffffffffffffffff 40000010 0 0
fpr 0 0 0 0 0 0 0 0
stack -
got 2 -1 0x40000010
result 00000000
out 2 1
> call $s nsIT.add 1 1 ->t
refused not an object
> show $s
1
> call o nsIT.add 1 ->s
refused count
> call o nsIT.add 1 ->x ->s
refused form 1
> call o nsIT.add 1 2147483648 ->s
refused range 1
> call z nsIT.add 1 1 ->s
refused no name
> object o nsIT
refused taken
> object p nsISupports
at 107e0
> call p nsIT.add 1 1 ->s
refused wrong interface
",
    },
    Played {
        name: "a heap that is full",
        idl: ADD,
        words: SYSV64,
        script: b"\
data z zero 16777216
data y 00
object o nsIT
",
        transcript: b"\
> data z zero 16777216
at 107d0
> data y 00
refused heap
> object o nsIT
refused heap
",
    },
    Played {
        name: "a block that is too big",
        idl: ADD,
        words: SYSV64,
        script: b"\
data z zero 16777217
",
        transcript: b"\
> data z zero 16777217
refused heap
",
    },
];

#[test]
fn refusals_come_to_their_transcripts(rt: HostRuntime) {
    play_all(&rt, rt.alloc(), &PLAYED);
}
