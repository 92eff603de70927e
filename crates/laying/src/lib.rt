// What the engine goes by, filled once for a file: the labels of functions and of built-in objects, the names of each class, the class that the guest is held to,
// and the variables that functions return.
#![tactic(auto)]

ghost use Rattle.std.specs.Prelude.{◌≡◌, cond, ◌^◌, ◌<◌, length, take, eqb, ltb};
ghost use Rattle.words.specs.Words.{bit, union};
ghost use Rattle.rows.specs.Edition.{labels};
ghost use Rattle.layout.specs.Key.{class_count};
ghost use Rattle.format.specs.Reading.{Readable};
ghost use Rattle.program.specs.Program.{Program, program_in};
ghost use Rattle.sets.specs.Value.{value};
ghost use Rattle.host.specs.Lays.{Lays, ReturnsOf, ReturnsNothing, Known};
ghost use Rattle.records.specs.Walk.{Walk};
ghost use Rattle.laying.specs.Arrays.{Arrays};
ghost use Rattle.laying.specs.Holds.{Holds, has_byte, of_class, Classes};
ghost use Rattle.laying.specs.Marked.{with_mark, Marked, MarkedAt};

use host::Host;
use host::handed::Returns;
use rows::{Label, Var};
use sets::Set;

// The labels of the edition whose byte is `byte`.
fn labels_with(wide: bool, bytes: &[u8; 256], byte: u8) -> Set
    ensures { Holds (has_byte bytes.now byte) (labels wide) (value wide result) }
{
    let mut all = sets::none(wide);
    for l in 0..rows::labels(wide) {
        if bytes[l] == byte {
            all = sets::union(wide, all, sets::single(wide, Label(l as u8)));
        }
    }
    all
}

// The class mask: 1 where no record gives one.
fn mask_of(given: u8) -> u64
    ensures { result ≡ cond (eqb given 0) 1 given }
{
    if given == 0 { 1 } else { u64::from(given) }
}

// The names, with n where its mask has the class.
fn with_name(names: u64, mask: u64, class: usize, n: usize) -> u64
    requires { (class < 64) × (n < 64) }
    ensures { result ≡ cond (eqb (bit mask class) 1) (union names (2 ^ n)) names }
{
    if words::contains(mask, class) {
        words::join(names, words::single(n))
    } else {
        names
    }
}

// All names of a class.
fn class_names(masks: &[u8; 32], class: usize) -> u64
    requires { class < 64 }
    ensures { Holds (of_class masks.now class) 32 result }
{
    let mut names = 0;
    for n in 0..32 {
        names = with_name(names, mask_of(masks[n]), class, n);
    }
    names
}

// The names of each class.
fn classes(masks: &[u8; 32]) -> [u64; 8]
    ensures { Classes 8 masks.now result }
{
    let mut names = [0; 8];
    for c in 0..8 {
        names[c] = class_names(masks, c);
    }
    names
}

// The class of names that the guest is held to: class 0, which has every name, where no record gives one.
fn class_of(profile: u8) -> u8
    ensures value { result ≡ cond (ltb profile class_count) profile 0 }
    ensures bound { result < 8 }
{
    if profile < layout::CLASS_COUNT {
        profile
    } else {
        0
    }
}

// Variable x, among those of the f-th function of an array.
fn mark_in(ws: &mut [u64; 256], f: usize, x: Var)
    requires { (f < 64) × (length ws.old ≡ 256) }
    ensures { ws.new ≡ with_mark ws.old f x.0 }
{
    let v = usize::from(x.0);
    let at = 4 * f + v / 64;
    ws[at] = words::join(ws[at], words::single(v % 64));
}

// Variable x, among those that function k returns, or the top level where k is 0.
fn mark(returns: &mut Returns, k: Label, x: Var)
    ensures { Marked k.0 x.0 returns.old returns.new }
{
    let f = usize::from(k.0);
    if f < 64 {
        mark_in(&mut returns.first, f, x);
    } else if f < 128 {
        mark_in(&mut returns.second, f - 64, x);
    } else if f < 192 {
        mark_in(&mut returns.third, f - 128, x);
    } else {
        mark_in(&mut returns.fourth, f - 192, x);
    }
}

// What the record at `at` returns, where it is a return: k, value.
fn collect_at(wide: bool, file: &[u8], at: usize, returns: &mut Returns)
    requires { Walk (labels wide) file.now at × (at < length file.now) }
    ensures { MarkedAt file.now at returns.old returns.new }
{
    if file[at] == 23 {
        mark(returns, Label(file[at + 1]), Var(file[at + 2]));
    }
}

// The variables that functions return, from the records of a file, where none was marked before; the guest, function 3, returns its bag, variable 1. What the
// top level returns stands at label 0, which is no function: the promise says nothing of it, and no rule asks for it.
fn collect(wide: bool, file: &[u8], returns: &mut Returns)
    requires { Readable (labels wide) file.now × ReturnsNothing returns.old }
    ensures { ReturnsOf (program_in (labels wide) file.now) returns.new }
{
    mark(returns, Label(3), Var(1));
    for at in records::positions(file) {
        collect_at(wide, file, at, returns);
    }
}

// The type of functions, and the flag of built-in objects.
const FUNCTION: u8 = 2;

const BUILT_IN: u8 = 1;

// What the engine goes by of the file: by the sheet of `host`, and, where no variable that a function returns was marked before, what the file's functions
// return. Where the sheet has the file's declarations, all is the file's. It is laid in place: a Host that is handed back is copied twice, 8 kB each time.
pub fn lay_out(wide: bool, file: &[u8], host: &mut Host)
    requires { Readable (labels wide) file.now × ReturnsNothing host.old.returns }
    ensures sheet { host.new.sheet.now ≡ host.old.sheet.now }
    ensures lays { (p : Program) → p.sheet.types ≡ take (labels wide) host.old.sheet.now.types → p.sheet.flags ≡ take (labels wide) host.old.sheet.now.flags → p.sheet.masks ≡ host.old.sheet.now.masks → p.sheet.profile ≡ host.old.sheet.now.profile → Lays wide p host.new }
    ensures returns_of { ReturnsOf (program_in (labels wide) file.now) host.new.returns }
    ensures known { Arrays wide file.now host.old.sheet.now → Known wide (program_in (labels wide) file.now) host.new }
{
    let sheet = host.sheet;
    host.functions = labels_with(wide, &sheet.types, FUNCTION);
    host.built_ins = labels_with(wide, &sheet.flags, BUILT_IN);
    host.classes = classes(&sheet.masks);
    host.guest_class = class_of(sheet.profile);
    collect(wide, file, &mut host.returns);
}
