//! Files that the runs share.

/// An interface with one method of one number.
pub const THIN: &[u8] =
    b"[uuid(00000001-0002-0003-0405-060708090a0b)] interface nsIA { void f(in long x); };";

/// The typelib of the thin file, in the order of its fields: header, annotation, directory entry,
/// names, descriptor.
pub const TYPELIB: [u8; 88] = [
    0x58, 0x50, 0x43, 0x4f, 0x4d, 0x0a, 0x54, 0x79, 0x70, 0x65, 0x4c, 0x69, 0x62, 0x0d, 0x0a, 0x1a,
    0x01, 0x02, 0x00, 0x01, 0x00, 0x00, 0x00, 0x58, 0x00, 0x00, 0x00, 0x25, 0x00, 0x00, 0x00, 0x40,
    0x80, 0x00, 0x00, 0x00, 0x00, 0x00, 0x00, 0x01, 0x00, 0x02, 0x00, 0x03, 0x04, 0x05, 0x06, 0x07,
    0x08, 0x09, 0x0a, 0x0b, 0x00, 0x00, 0x00, 0x01, 0x00, 0x00, 0x00, 0x00, 0x00, 0x00, 0x00, 0x08,
    0x6e, 0x73, 0x49, 0x41, 0x00, 0x66, 0x00, 0x00, 0x00, 0x00, 0x01, 0x00, 0x00, 0x00, 0x00, 0x06,
    0x01, 0x80, 0x02, 0x00, 0x06, 0x00, 0x00, 0x00,
];

pub const CALL_OF_ONE: &[u8] = b"object o nsIA\ncall o nsIA.f -1\n";

pub const TRANSCRIPT_OF_ONE: &[u8] = b"\
> object o nsIA
at 107d0
> call o nsIA.f -1
slot 0 entry 1000
gpr 107d0 ffffffffffffffff 0 0 0 0
fpr 0 0 0 0 0 0 0 0
stack -
got -1
result 80004001
";

/// The words of the runs that compile and of those that call.
pub const COMPILE: &str = "compile a.idl";

pub const CALL: &str = "call sysv64 a.xpt s.txt";

/// The interface that others follow.
pub const SUPPORTS: &[u8] = b"\
typedef unsigned long nsrefcnt;
native size_t(size_t);
[ref, nsid] native nsIIDRef(nsIID);
[ptr] native nsQIResult(void);
[ref, astring] native AString(ignored);
[scriptable, uuid(00000000-0000-0000-c000-000000000046)]
interface nsISupports {
  void QueryInterface(in nsIIDRef uuid,
                      [iid_is(uuid), retval] out nsQIResult result);
  [noscript, notxpcom] nsrefcnt AddRef();
  [noscript, notxpcom] nsrefcnt Release();
};
%{C++
#include \"nsISupportsUtils.h\"
%}
";
