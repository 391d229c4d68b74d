//! The interfaces of the scripts.

/// A sum of two numbers.
pub const ADD: &[u8] = b"#include \"nsISupports.idl\"\n\
    [uuid(01020304-0506-0708-090a-0b0c0d0e0f10)] interface nsIT : nsISupports { \
    long add(in long a, in long b); \
    };";

pub const SHORT: &[u8] = b"#include \"nsISupports.idl\"\n\
    [uuid(01020304-0506-0708-090a-0b0c0d0e0f10)] interface nsIE : nsISupports { \
    void sh(in short v); \
    };";

pub const PICK: &[u8] = b"#include \"nsISupports.idl\"\n\
    [uuid(01020304-0506-0708-090a-0b0c0d0e0f10)] interface nsIO : nsISupports { \
    [optional_argc] long pick(in long a, [optional] in long b, [optional] in long c); \
    };";

pub const MIX: &[u8] = b"[uuid(01020304-0506-0708-090a-0b0c0d0e0f10)] interface nsIM { \
    void mix(in double a, in double b, in long n, in double c, in double d, in double e, in \
    double f, in double g, in double h, in double i); \
    };";

pub const PAD: &[u8] = b"[uuid(01020304-0506-0708-090a-0b0c0d0e0f10)] interface nsID { \
    void pad(in long long x, in boolean b, in octet c); \
    };";

pub const HIDDEN: &[u8] = b"#include \"nsISupports.idl\"\n\
    [uuid(01020304-0506-0708-090a-0b0c0d0e0f10)] interface nsIH : nsISupports { \
    void p(); [noscript] void h(); void q(); \
    };";

pub const TITLE: &[u8] = b"#include \"nsISupports.idl\"\n\
    [uuid(01020304-0506-0708-090a-0b0c0d0e0f10)] interface nsIS : nsISupports { \
    readonly attribute AString title; \
    };";

pub const LIST: &[u8] = b"#include \"nsISupports.idl\"\n\
    [uuid(01020304-0506-0708-090a-0b0c0d0e0f10)] interface nsIL : nsISupports { \
    void list(out unsigned long n, [array, size_is(n)] out short v); \
    };";

pub const FLAG: &[u8] = b"#include \"nsISupports.idl\"\n\
    [uuid(01020304-0506-0708-090a-0b0c0d0e0f10)] interface nsIB : nsISupports { \
    void b8(out boolean v); \
    };";

pub const PART: &[u8] = b"#include \"nsISupports.idl\"\n\
    [uuid(01020304-0506-0708-090a-0b0c0d0e0f10)] interface nsIP : nsISupports { \
    void part(in unsigned long n, out unsigned long m, [array, size_is(n), length_is(m)] out \
    short v); \
    };";

pub const CONTEXT: &[u8] = b"#include \"nsISupports.idl\"\n\
    [uuid(01020304-0506-0708-090a-0b0c0d0e0f10)] interface nsIC : nsISupports { \
    [implicit_jscontext, optional_argc] long ctx(in long a, [optional] in long b); \
    [implicit_jscontext] attribute long x; \
    };";

pub const SEVEN: &[u8] = b"[uuid(00000001-0002-0003-0405-060708090a0b)] interface nsIA { \
    void seven(in long a, in long b, in long c, in long d, in long e, in long f, in long g); };";
