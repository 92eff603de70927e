// What the engine goes by beside the table: the sheet, the labels of functions, those of built-in objects, the names of each class, the class of names that the
// guest is held to, and what functions return.
#![tactic(auto)]

ghost use Rattle.std.specs.Prelude.{◌≡◌, ◌<◌};
ghost use Rattle.std.specs.Int.Bits.{bit_and};
ghost use Rattle.words.specs.Words.{difference};
ghost use Rattle.layout.specs.Key.{Key};
ghost use Rattle.sets.specs.Value.{value};

pub mod handed;

use crate::handed::Returns;
use sets::Set;
use sheet::Sheet;

#[derive(Drop)]
pub struct Host<'a> {
    pub sheet: &'a Sheet,
    // the labels of functions, and those of built-in objects
    pub functions: Set,
    pub built_ins: Set,
    // of each class its names, as a word
    pub classes: [u64; 8],
    // the class that the guest is held to
    pub guest_class: u8,
    pub returns: Returns,
    ghost in_range: { guest_class < 8 },
}

// Bit n for each name n.
const ALL_NAMES: u64 = 0xffffffff;

impl<'a> Host<'a> {
    ghost use Rattle.host.specs.Lays.{functions_in, built_ins_in, names_in, guest_key_in, ReturnsNothing};

    // Of this sheet, before the rest is laid. It is laid in place, since a Host is long to copy (crate laying).
    pub fn new(sheet: &'a Sheet) -> Self
        ensures sheet { result.sheet.now ≡ sheet.now }
        ensures returns { ReturnsNothing result.returns }
    {
        Host {
            sheet,
            functions: sets::none(true),
            built_ins: sets::none(true),
            classes: [0; 8],
            guest_class: 0,
            returns: Returns::none(),
        }
    }

    // The functions among the labels of s.
    pub fn functions_among(&self, wide: bool, s: Set) -> Set
        ensures { value wide result ≡ bit_and (value wide s) (functions_in wide self.now) }
    {
        sets::meet(wide, s, self.functions)
    }

    // The labels of s that are not those of built-in objects.
    pub fn without_built_ins(&self, wide: bool, s: Set) -> Set
        ensures { value wide result ≡ difference (value wide s) (built_ins_in wide self.now) }
    {
        sets::without(wide, s, self.built_ins)
    }

    // The names of a key, as a word.
    pub fn names(&self, key: u8) -> u64
        requires { Key key }
        ensures { result ≡ names_in self.now key }
    {
        if key < layout::INSIDE {
            return words::single(usize::from(key));
        }
        if key < layout::OUTSIDE {
            let class = key - layout::INSIDE;
            return self.classes[usize::from(class)];
        }
        let class = key - layout::OUTSIDE;
        words::without(ALL_NAMES, self.classes[usize::from(class)])
    }

    // The key of the guest's class.
    pub fn guest_key(&self) -> u8
        ensures { (result ≡ guest_key_in self.now) × Key result }
    {
        layout::INSIDE + self.guest_class
    }
}
