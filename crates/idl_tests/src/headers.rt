//! The headers of what texts declare.

use crate::cases::check_words;
use crate::declared::scope_of;
use crate::long_texts::{LongText, written};
use header_text::{HeaderWriteError, header};
use std::alloc::Global;
use std::process::Abort;
use vtable_layout::layout;
use xp_base::{Bytes, Memory, hex_text};

/// A text and its header.
type Row = (&'static [u8], &'static str);

/// What the texts come to: an interface and one that extends it; classes in the order of
/// definition, which is not that of mention; what is only named; and nothing.
const ROWS: [Row; 10] = [
    (
        b"
        [ref, nsid] native nsIIDRef(nsIID);
        [ptr] native nsQIResult(void);
        [uuid(00000000-0000-0000-c000-000000000046)] interface nsISupports {
            void QueryInterface(in nsIIDRef uuid, [iid_is(uuid), retval] out nsQIResult result);
            [noscript, notxpcom] unsigned long AddRef();
            [noscript, notxpcom] unsigned long Release();
        };
        [uuid(01020304-0506-0708-090a-0b0c0d0e0f10)]
        interface nsIT : nsISupports { long add(in long a, in long b); };",
        "\
class nsISupports;
class nsIT;
class nsISupports {
 public:
  virtual nsresult QueryInterface(const nsID& a0_uuid, void** a1_result) = 0;
  virtual void xpcall_reserved_1() = 0;
  virtual void xpcall_reserved_2() = 0;
};
class nsIT : public nsISupports {
 public:
  virtual nsresult Add(int32_t a0_a, int32_t a1_b, int32_t* a2_retval) = 0;
};
",
    ),
    (
        b"
        interface nsIB;
        [uuid(00000002-0000-0000-0000-000000000000)] interface nsIA { };
        [uuid(00000001-0000-0000-0000-000000000000)] interface nsIB : nsIA { };",
        "\
class nsIB;
class nsIA;
class nsIA {
 public:
};
class nsIB : public nsIA {
 public:
};
",
    ),
    (b"interface x; typedef x t;", "class x;\n"),
    (b"typedef long t;", ""),
    (
        b"
        [uuid(00000001-0000-0000-0000-000000000000)] interface i {
            void values(in short a, in long b, in long long c, in octet d, in unsigned short e,
                in unsigned long f, in unsigned long long g, in float h, in double i, in boolean j,
                in char k, in wchar l, in string m, in wstring n);
            void cells(out boolean a, inout double b, out string c, inout wstring d);
        };",
        "\
class i;
class i {
 public:
  virtual nsresult Values(int16_t a0_a, int32_t a1_b, int64_t a2_c, uint8_t a3_d, uint16_t a4_e, \
uint32_t a5_f, uint64_t a6_g, float a7_h, double a8_i, bool a9_j, char a10_k, char16_t a11_l, \
char* a12_m, char16_t* a13_n) = 0;
  virtual nsresult Cells(bool* a0_a, double* a1_b, char** a2_c, char16_t** a3_d) = 0;
};
",
    ),
    (
        b"
        [ref, nsid] native R(nsID);
        [ptr, nsid] native P(nsID);
        native N(void);
        [uuid(00000001-0000-0000-0000-000000000000)] interface i {
            void identifiers(in R a, in P b, out P c, inout P d);
            void objects(in i a, out i b, in R c, [iid_is(c)] in N d, [iid_is(c)] out i e);
            void arrays(in unsigned long n, [array, size_is(n)] in long a,
                [array, size_is(n)] out i b, [array, size_is(n)] in P c, in P d,
                [array, size_is(n), iid_is(d)] inout i e);
        };",
        "\
class i;
class i {
 public:
  virtual nsresult Identifiers(const nsID& a0_a, const nsID* a1_b, nsID** a2_c, nsID** a3_d) = 0;
  virtual nsresult Objects(i* a0_a, i** a1_b, const nsID& a2_c, void* a3_d, void** a4_e) = 0;
  virtual nsresult Arrays(uint32_t a0_n, int32_t* a1_a, i*** a2_b, nsID** a3_c, const nsID* a4_d, \
void*** a5_e) = 0;
};
",
    ),
    (
        b"
        [ref, domstring] native D(void);
        [ref, utf8string] native U(void);
        [ref, cstring] native C(void);
        [ref, astring] native A(void);
        [uuid(00000001-0000-0000-0000-000000000000)] interface i {
            void strings(in D a, out D b, in U c, out U d, in C e, out C f, in A g, out A h);
            attribute A text;
        };",
        "\
class i;
class i {
 public:
  virtual nsresult Strings(const nsAString& a0_a, nsAString& a1_b, const nsACString& a2_c, \
nsACString& a3_d, const nsACString& a4_e, nsACString& a5_f, const nsAString& a6_g, \
nsAString& a7_h) = 0;
  virtual nsresult GetText(nsAString& a0_retval) = 0;
  virtual nsresult SetText(const nsAString& a0_value) = 0;
};
",
    ),
    (
        b"
        [uuid(00000001-0000-0000-0000-000000000000)] interface i {
            const long k = 1;
            attribute long value;
            readonly attribute boolean _b;
            [implicit_jscontext] attribute double Ratio;
            [optional_argc, implicit_jscontext] long m(in long a, [optional] in long b);
            [optional_argc] void n([optional] in long a, [retval] out long total);
            [implicit_jscontext] void o(in octet a);
        };",
        "\
class i;
class i {
 public:
  virtual nsresult GetValue(int32_t* a0_retval) = 0;
  virtual nsresult SetValue(int32_t a0_value) = 0;
  virtual nsresult Get_b(bool* a0_retval) = 0;
  virtual nsresult GetRatio(JSContext* a0_cx, double* a1_retval) = 0;
  virtual nsresult SetRatio(JSContext* a0_cx, double a1_value) = 0;
  virtual nsresult M(int32_t a0_a, int32_t a1_b, JSContext* a2_cx, uint8_t a3_argc, \
int32_t* a4_retval) = 0;
  virtual nsresult N(int32_t a0_a, uint8_t a1_argc, int32_t* a2_total) = 0;
  virtual nsresult O(uint8_t a0_a, JSContext* a1_cx) = 0;
};
",
    ),
    (
        b"
        native N(void);
        [jsval] native J(void);
        [uuid(00000002-0000-0000-0000-000000000000)] interface i {
            [noscript] void hidden();
            [notxpcom] long direct(in long a);
            void script(in J a);
            attribute N unknown;
            void last();
        };
        [uuid(00000001-0000-0000-0000-000000000000)] interface j : i {
            [noscript] attribute long own;
            void m();
        };",
        "\
class i;
class j;
class i {
 public:
  virtual void xpcall_reserved_0() = 0;
  virtual void xpcall_reserved_1() = 0;
  virtual void xpcall_reserved_2() = 0;
  virtual void xpcall_reserved_3() = 0;
  virtual void xpcall_reserved_4() = 0;
  virtual nsresult Last() = 0;
};
class j : public i {
 public:
  virtual void xpcall_reserved_6() = 0;
  virtual void xpcall_reserved_7() = 0;
  virtual nsresult M() = 0;
};
",
    ),
    (
        b"
        native N(void);
        [uuid(00000001-0000-0000-0000-000000000000)] interface i { N shut(); };
        [uuid(00000002-0000-0000-0000-000000000000)] interface j : i { void open(); };",
        "\
class i;
class j;
class i {
 public:
  virtual void xpcall_reserved_0() = 0;
};
class j : public i {
 public:
  virtual nsresult Open() = 0;
};
",
    ),
];

/// The header of a text, or why it has none.
fn header_of(rt: &impl Abort, alloc: Global, text: &[u8]) -> Result<Bytes, HeaderWriteError> {
    let scope = scope_of(rt, alloc, text);
    let slots = layout(alloc, &scope).expect(rt, "slots");
    header(alloc, &scope, &slots)
}

/// A text has this header.
fn check_header(rt: &impl Abort, alloc: Global, text: &[u8], wanted: &str) {
    let found = header_of(rt, alloc, text).expect(rt, "a header");
    let words = str::from_utf8(found.as_slice()).expect(rt, "words");
    check_words(rt, wanted, words, wanted);
}

#[test]
fn interfaces_are_declared_as_classes(rt: HostRuntime) {
    for (text, wanted) in &ROWS {
        check_header(&rt, rt.alloc(), *text, *wanted);
    }
}

/// Fifty bytes of a name.
const FIFTY: &[u8] = b"aaaaaaaaaaaaaaaaaaaaaaaaaaaaaaaaaaaaaaaaaaaaaaaaaa";

/// What stands behind the name of a method: 201 parameters.
const PARAMETERS: LongText = LongText {
    name: "parameters",
    begin: b"(in t b",
    before: b",in t a",
    behind: b"",
    times: 200,
    end: b");",
    outcome: "header",
    iface: 0,
    member: 0,
};

/// Adds a type with a name of 251 bytes, which is an interface's, and a short name for it.
fn add_type(text: &mut Bytes) -> Result<(), Memory> {
    text.append(b"interface i")?;
    for _ in 0..5 {
        text.append(FIFTY)?;
    }
    text.append(b"; typedef i")?;
    for _ in 0..5 {
        text.append(FIFTY)?;
    }
    text.append(b" t;")
}

/// An interface of so many methods of 201 parameters of a type with a name of 251 bytes.
fn wide_text(alloc: Global, methods: u64) -> Result<Bytes, Memory> {
    let parameters = written(alloc, &PARAMETERS)?;
    let mut text = Bytes::new(alloc);
    add_type(&mut text)?;
    text.append(b"[uuid(00000001-0000-0000-0000-000000000000)] interface w {")?;
    for i in 0..methods {
        let number = hex_text(alloc, i)?;
        text.append(b"void m")?;
        text.append(number.as_slice())?;
        text.append(parameters.as_slice())?;
    }
    text.append(b"};")?;
    Ok(text)
}

/// Whether the header of so many methods is too long.
fn is_too_long(rt: &impl Abort, alloc: Global, methods: u64) -> bool {
    let text = wide_text(alloc, methods).expect(rt, "a text");
    matches!(
        header_of(rt, alloc, text.as_slice()),
        Err(HeaderWriteError::TooLong)
    )
}

#[test]
fn headers_have_at_most_eight_mebibytes(rt: HostRuntime) {
    let first = is_too_long(&rt, rt.alloc(), 150);
    let second = is_too_long(&rt, rt.alloc(), 170);
    assert!(rt; !first, "150 methods");
    assert!(rt; second, "170 methods");
}
