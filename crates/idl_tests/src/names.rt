//! The scopes of texts, and the first faults of those that have none.

use crate::cases::check_words;
use crate::declared::resolved;
use idl_names::{IdlError, Scope, ScopeBody};
use std::alloc::{AllocError, Global};
use std::process::Abort;

/// What comes of a text, in words: `-` for a scope, or the code of its first fault, its declaration
/// and its member.
fn told(alloc: Global, resolved: &Result<Scope, IdlError>) -> Result<String, AllocError> {
    match resolved {
        Ok(_) => format!(in alloc; "-"),
        Err(
            IdlError::Fault {
                code,
                decl,
                member,
                ..
            },
        ) => format!(in alloc; "{code} {decl} {member}"),
        Err(IdlError::Memory) => format!(in alloc; "memory"),
    }
}

/// A text comes to what is wanted.
fn check_text(rt: &impl Abort, alloc: Global, text: &str, wanted: &str) {
    let resolved = resolved(rt, alloc, text.as_bytes());
    let found = told(alloc, &resolved).expect(rt, text);
    check_words(rt, text, found.as_str(), wanted);
}

/// The row of a table, in two parts.
fn parts<'a>(rt: &impl Abort, row: &'a str) -> (&'a str, &'a str) {
    row.split_once(':').expect(rt, row)
}

/// Texts, each behind what comes of it.
const DECLARATIONS: &str = "\
1 1 0: typedef long a; typedef short a;
1 1 0: interface a; typedef long a; interface b;
1 1 0: native a(x); interface a;
1 1 0: [uuid(00000001-0000-0000-0000-000000000000)] interface a { }; \
[uuid(00000001-0000-0000-0000-000000000000)] interface a { };
2 0 0: typedef a a;
2 0 0: typedef b a; typedef long b;
3 0 0: [uuid(00000001-0000-0000-0000-000000000000)] interface a : b { };
3 1 0: interface b; [uuid(00000001-0000-0000-0000-000000000000)] interface a : b { };
3 0 0: [uuid(00000001-0000-0000-0000-000000000000)] interface a : a { };
3 2 0: [uuid(00000001-0000-0000-0000-000000000000)] interface a { }; typedef a b; \
[uuid(00000001-0000-0000-0000-000000000001)] interface c : b { };
4 0 0: interface a { };
4 0 0: [uuid(foo)] interface a { };
5 1 0: [uuid(0000000a-0000-0000-0000-000000000000)] interface a { }; \
[uuid(0000000A-0000-0000-0000-000000000000)] interface b { };
5 1 0: [uuid(00000001-0000-0000-0000-000000000000), \
uuid(00000002-0000-0000-0000-000000000000)] interface a { }; \
[uuid(00000001-0000-0000-0000-000000000000)] interface b { };
6 0 0: typedef void a;
-:
-: interface a; interface a; interface b;
-: interface a; [uuid(00000001-0000-0000-0000-000000000000)] interface a { }; interface a;
-: [uuid(foo), uuid(00000001-0000-0000-0000-000000000000)] interface a { };
-: [uuid(00000001-0000-0000-0000-000000000000), uuid(00000002-0000-0000-0000-000000000000)] \
interface a { }; [uuid(00000002-0000-0000-0000-000000000000)] interface b { };
-: typedef long a; typedef a b; typedef b c;
-: #include \"x\" %{ x %} typedef long a;
-: [uuid(00000000-0000-0000-0000-000000000000)] interface a { };
1 2 0: typedef long a; %{ x %} typedef long a;
1 1 0: native a(x); [jsval] native a(x);
1 1 0: [uuid(00000001-0000-0000-0000-000000000000)] interface b { }; \
[uuid(00000001-0000-0000-0000-000000000000)] interface b : a { };
1 2 0: interface a; typedef a b; typedef b a;
";

#[test]
fn declarations_have_these_codes(rt: HostRuntime) {
    for row in DECLARATIONS.lines() {
        let (wanted, text) = parts(&rt, row);
        check_text(&rt, rt.alloc(), text, wanted);
    }
}

/// Natives, typedefs and interfaces that a body can name, and the front of its own interface.
const BEFORE: &str = "\
[ref, nsid] native R(x); [ptr, nsid] native S(x); native P(x); [astring] native A(x);
typedef short T; interface O;
[uuid(00000001-0000-0000-0000-000000000001)] interface B { const long b = 3; void g(); };
[scriptable, uuid(00000001-0000-0000-0000-000000000002)] interface C : B {";

/// An interface with this body.
fn within(rt: &impl Abort, alloc: Global, body: &str) -> String {
    format!(in alloc; "{}{body}}};", BEFORE).expect(rt, body)
}

/// Bodies of an interface, each behind what comes of it. The interface is the seventh declaration.
const MEMBERS: &str = "\
1 7 3: void f(); %{ x %} void f();
1 7 2: const long f = 1; attribute long f;
1 7 1: void f(in long x, in long x);
-: void g();
2 7 1: void f(in N x);
2 7 1: attribute N x;
2 7 1: N f();
2 7 1: const long k = n;
2 7 1: const long k = j; const long j = 1;
2 7 2: void j(); const long k = j;
6 7 1: void f(in void x);
6 7 1: attribute void x;
6 7 1: const void k = 1;
7 7 1: attribute R x;
7 7 1: R f();
7 7 1: void f(out R x);
7 7 1: void f([array] out R x);
7 7 1: void f([array] inout A x);
8 7 1: void f([size_is(n)] in long x, in long n);
8 7 1: void f([array, size_is(m)] in long x, in long n);
8 7 1: void f([array, size_is(n)] in long x, in float n);
8 7 1: void f([array, size_is(n)] in long x, [array, size_is(x)] in long n);
8 7 1: void f([array, length_is(n)] in long x, in long n);
8 7 1: void f([array, size_is(n), length_is(m)] in long x, in long n);
8 7 1: void f([length_is(n)] in long x, in long n);
8 7 1: void f([iid_is(i)] in long x, in R i);
8 7 1: void f([iid_is(i)] in O x, in long i);
9 7 1: void f([array] in long x);
9 7 1: void f([array, size_is(n)] in A x, in long n);
9 7 1: void f([array, size_is(n)] in R x, in long n);
9 7 1: void f([array, size_is] in long x);
10 7 1: const boolean k = 1;
10 7 1: const long long k = 1;
11 7 1: const short k = 1 << 64;
11 7 1: const short k = 32768;
11 7 1: const unsigned long k = -1;
11 7 1: const long k = -9223372036854775808;
11 7 1: const long k = 9223372036854775807 + 1 - 9223372036854775807;
11 7 1: const long k = 0x8000000000000000 >> 63;
11 7 1: const long k = 1 << -1;
12 7 1: void f([retval] out long a, in long b);
12 7 1: void f([retval] in long a);
12 7 1: long f([retval] out long a);
13 7 1: void f([optional] in long a, in long b);
13 7 1: void f([optional] in long a, [optional] in long b, in long c);
14 7 1: void f(in P x);
14 7 1: attribute P x;
14 7 1: P f();
14 7 1: void f([array, size_is(n)] in P x, in long n);
-: [noscript] void f(in P x);
-: [notxpcom] attribute P x;
-: void f([iid_is(i)] in P x, in R i);
-: void f([iid_is(i)] out O x, in S i);
-: void f([optional] in long a, [retval] out long b);
-: void f([size_is(n), length_is(m)] in string x, in long n, in octet m);
-: const T k = b; const long b = k + b; const long c = b;
-: void f(in C x, in O y, in T z);
-: attribute A x; A f(in A x, out A y);
-: const long k = 9223372036854775807 >> 62;
-: void f([array(x)] in long a, [retval(x)] in long b, [size_is] in long c);
";

#[test]
fn members_have_these_codes(rt: HostRuntime) {
    for row in MEMBERS.lines() {
        let (wanted, body) = parts(&rt, row);
        let text = within(&rt, rt.alloc(), body);
        check_text(&rt, rt.alloc(), text.as_str(), wanted);
    }
}

/// The value of the first member of the last interface, where it is a constant.
fn last_value(scope: &Scope) -> Option<i64> {
    let last = scope.ifaces.as_slice().last()?;
    match &last.members.get(0)?.body {
        ScopeBody::Constant { value, .. } => Some(*value),
        _ => None,
    }
}

/// The same in words; `-` where there is a fault.
fn told_value(alloc: Global, resolved: &Result<Scope, IdlError>) -> Result<String, AllocError> {
    match resolved {
        Ok(scope) => format!(in alloc; "{:?}", last_value(scope)),
        Err(_) => format!(in alloc; "-"),
    }
}

/// A constant of an expression comes to what is wanted.
fn check_value(rt: &impl Abort, alloc: Global, expression: &str, wanted: &str) {
    let text = format!(in alloc; "{}const long k = {expression};}};", BEFORE);
    let text = text.expect(rt, expression);
    let resolved = resolved(rt, alloc, text.as_bytes());
    let found = told_value(alloc, &resolved).expect(rt, expression);
    check_words(rt, expression, found.as_str(), wanted);
}

/// Expressions, each behind its value.
const VALUES: &str = "\
Some(1): 9223372036854775807 >> 62
Some(-1): -1 << 63 >> 63
Some(10): 1 << 3 | 4 + 2 * 3
Some(-3): -5 >> 1
Some(2147483647): 0x7fffffff
Some(10): 0010
Some(-20): -(2 + 3) * 4
Some(-1): -1 | 0
Some(-3): -8 | 5
Some(3): b
Some(4): 7 - 2 - 1
Some(1): 1 << 0
";

#[test]
fn constants_have_these_values(rt: HostRuntime) {
    for row in VALUES.lines() {
        let (wanted, expression) = parts(&rt, row);
        check_value(&rt, rt.alloc(), expression, wanted);
    }
}
