//! Where the arguments of declared functions are passed.

ghost use Rattle.header_model.specs.Declares.{Declares};

use crate::readings::class_of;
use call_model::Conv;
use header_model::{Decl, MAX_HEADER};
use header_reader::read_header;
use header_text::places;
use std::alloc::Global;
use std::process::Abort;
use xp_base::{Bytes, List};

/// A class with a function and reserved slots, and one that extends it.
const FAMILY: &str = "\
class nsISupports;
class nsIT;
class nsISupports {
 public:
  virtual nsresult QueryInterface(const nsID& a0_uuid, void** a1_result) = 0;
  virtual void xpcall_reserved_1() = 0;
  virtual void xpcall_reserved_2() = 0;
};
class nsIT : public nsISupports {
 public:
  virtual nsresult Add(int32_t a0_a, int32_t a1_b, int32_t* a2_retval) = 0;
};
";

/// Values of four and of eight bytes, and more of either class than there are registers.
const MANY: &str = "\
class a {
 public:
  virtual nsresult F(bool a, double b, int64_t c, float d, int8_t e, uint64_t f) = 0;
  virtual nsresult G(int64_t a, int64_t b, int64_t c, int64_t d, int64_t e, int64_t f, int64_t g, \
int64_t h) = 0;
  virtual nsresult H(float a, double b, float c, double d, float e, double f, float g, double h, \
float i) = 0;
};
";

/// A convention, a text, and where its arguments are passed.
type Row = (Conv, &'static str, &'static str);

const ROWS: [Row; 11] = [
    (Conv::SysV64, "", ""),
    (
        Conv::SysV64,
        FAMILY,
        "class nsISupports\nslot 0 QueryInterface g0 g1 g2\nslot 1 -\nslot 2 -\n\
class nsIT\nslot 3 Add g0 g1 g2 g3\n",
    ),
    (
        Conv::I386,
        FAMILY,
        "class nsISupports\nslot 0 QueryInterface s0 s4 s8\nslot 1 -\nslot 2 -\n\
class nsIT\nslot 3 Add s0 s4 s8 s12\n",
    ),
    (
        Conv::Aapcs64,
        FAMILY,
        "class nsISupports\nslot 0 QueryInterface g0 g1 g2\nslot 1 -\nslot 2 -\n\
class nsIT\nslot 3 Add g0 g1 g2 g3\n",
    ),
    (
        Conv::Ms64,
        FAMILY,
        "class nsISupports\nslot 0 QueryInterface g0 g1 g2\nslot 1 -\nslot 2 -\n\
class nsIT\nslot 3 Add g0 g1 g2 g3\n",
    ),
    (
        Conv::Aapcs32,
        FAMILY,
        "class nsISupports\nslot 0 QueryInterface s0 s4 s8\nslot 1 -\nslot 2 -\n\
class nsIT\nslot 3 Add s0 s4 s8 s12\n",
    ),
    (
        Conv::SysV64,
        MANY,
        "class a\nslot 0 F g0 g1 f0 g2 f1 g3 g4\nslot 1 G g0 g1 g2 g3 g4 g5 s0 s8 s16\n\
slot 2 H g0 f0 f1 f2 f3 f4 f5 f6 f7 s0\n",
    ),
    (
        Conv::I386,
        MANY,
        "class a\nslot 0 F s0 s4 s8 s16 s24 s28 s32\nslot 1 G s0 s4 s12 s20 s28 s36 s44 s52 s60\n\
slot 2 H s0 s4 s8 s16 s20 s28 s32 s40 s44 s52\n",
    ),
    (
        Conv::Aapcs64,
        MANY,
        "class a\nslot 0 F g0 g1 f0 g2 f1 g3 g4\nslot 1 G g0 g1 g2 g3 g4 g5 g6 g7 s0\n\
slot 2 H g0 f0 f1 f2 f3 f4 f5 f6 f7 s0\n",
    ),
    (
        Conv::Ms64,
        MANY,
        "class a\nslot 0 F g0 g1 f2 g3 s32 s40 s48\nslot 1 G g0 g1 g2 g3 s32 s40 s48 s56 s64\n\
slot 2 H g0 f1 f2 f3 s32 s40 s48 s56 s64 s72\n",
    ),
    (
        Conv::Aapcs32,
        MANY,
        "class a\nslot 0 F s0 s4 s8 s16 s24 s28 s32\nslot 1 G s0 s8 s16 s24 s32 s40 s48 s56 s64\n\
slot 2 H s0 s4 s8 s16 s24 s32 s40 s48 s56 s64\n",
    ),
];

/// The classes of a text.
fn declared(rt: &impl Abort, alloc: Global, text: &[u8]) -> List<Decl>
    ensures { Declares text.now result }
{
    assert!(rt; text.len() <= MAX_HEADER);
    read_header(alloc, text).expect(rt, "declarations")
}

/// Where the arguments of a text's functions are passed.
fn places_of(rt: &impl Abort, alloc: Global, conv: Conv, text: &str) -> Bytes {
    let decls = declared(rt, alloc, text.as_bytes());
    places(alloc, conv, &decls).expect(rt, "places")
}

#[test]
fn arguments_have_their_places(rt: HostRuntime) {
    for (conv, text, wanted) in &ROWS {
        let found = places_of(&rt, rt.alloc(), *conv, text);
        assert!(rt;
            found.as_slice() == wanted.as_bytes(),
            "of {text}: {found:?}"
        );
    }
}

#[test]
fn the_widest_class_is_placed(rt: HostRuntime) {
    let text = class_of(&rt, rt.alloc(), 250, 257);
    let found = places_of(&rt, rt.alloc(), Conv::I386, &text);
    assert!(rt; found.as_slice().starts_with(b"class a\nslot 0 f s0 s4 s8"));
    assert!(rt; found.as_slice().ends_with(b" s1020 s1024 s1028\n"));
}
