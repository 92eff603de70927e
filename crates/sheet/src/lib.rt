// The declaration sheet, a struct of arrays that takes one record and becomes the next sheet (document 01, "Table and sheet"). One sheet serves
// both editions: its arrays are those of 256 labels, and where `wide` is false the entries of the first 64 count.
#![tactic(auto)]

ghost use Rattle.std.specs.Prelude.{◌≡◌, not, ◌==◌, ◌&&◌, ◌<◌, get_or, length};
ghost use Rattle.std.specs.List.{list_any, zip};
ghost use Rattle.rows.specs.Edition.{labels};
ghost use Rattle.layout.specs.Layout.{fields_of};
ghost use Rattle.format.specs.Sheet.{start};
ghost use Rattle.format.specs.Fields.{Fits};
ghost use Rattle.format.specs.Records.{whole_refusal};
ghost use Rattle.format.specs.Reading.{lacking};
ghost use Rattle.fields.specs.Judging.{number_in};
ghost use Rattle.sheet.specs.View.{sheet_of, handed_back, declaring};

use answer::Refusal;
use layout::Kind;
use rows::Label;
use sets::Set;

const LABELS: usize = 256;

const NAMES: usize = 32;

const VARIABLES: usize = 256;

// This and six formals.
const SEVEN: usize = 7;

// Seven for each label.
const FORMALS: usize = 1792;

// No class has this number. The definition's sheet has it in the place of a profile too, so it is no Option.
const NO_PROFILE: u8 = 255;

#[derive(Clone, Copy)]
pub struct Sheet {
    // of each label: 0 not declared, 1 plain, 2 function, 3 array
    pub types: [u8; LABELS],
    // of each label: 1 built-in
    pub flags: [u8; LABELS],
    // of each label: 1 where its function is known
    pub defined: [u8; LABELS],
    // of each label seven variables: this, then six formals
    pub formals: [u8; FORMALS],
    // of each name its class mask, 0 where no record gives one
    pub masks: [u8; NAMES],
    // of each variable its owner scope, 1 where it is not declared
    pub owners: [u8; VARIABLES],
    // of each variable its name, 255 for none
    pub names: [u8; VARIABLES],
    // the forbidden labels
    pub forbidden: Set,
    // the class of names that guests are held to, NO_PROFILE where no record says so
    pub profile: u8,
}

// The sheet before the first record.
pub fn fresh(wide: bool) -> Sheet
    ensures { sheet_of wide result ≡ start (labels wide) }
{
    let mut types = [0u8; LABELS];
    types[0] = 1;
    types[1] = 1;
    types[2] = 1;
    types[3] = 2;
    types[4] = 1;
    let mut flags = [0u8; LABELS];
    flags[1] = 1;
    flags[2] = 1;
    flags[4] = 1;
    let mut defined = [0u8; LABELS];
    defined[3] = 1;
    Sheet {
        types,
        flags,
        defined,
        formals: [1u8; FORMALS],
        masks: [0u8; NAMES],
        owners: [1u8; VARIABLES],
        names: [255u8; VARIABLES],
        forbidden: sets::none(wide),
        profile: NO_PROFILE,
    }
}

// Whether a record that begins with this byte declares something. The others leave the sheet as it is, and it need not be copied for them. No record begins
// with 0, which the definition counts among the numbers below 6.
pub fn declares(kind: u8) -> bool
    ensures { result ≡ declaring kind }
{
    let Some(kind) = Kind::of(kind) else {
        return kind == 0;
    };
    matches!(
        kind,
        Kind::Name | Kind::Label | Kind::Forbid | Kind::Function | Kind::Variable | Kind::Profile
    )
}

// A label's type is 2 and its function is not known.
fn lacks(types: &[u8], defined: &[u8]) -> bool
    ensures { result ≡ list_any (λ label. (label.0 == 2) && (label.1 == 0)) (zip types.now defined.now) }
{
    types.iter().zip(defined).any(|(t, d)| *t == 2 && *d == 0)
}

// Each method gives the next sheet with ok, or the sheet as it was with the refusal.
#[tactic(auto, unfolding(format::specs::Records::whole_refusal, format::specs::Records::misnamed, format::specs::Records::twice, format::specs::Records::after))]
impl Sheet {
    // Kind 1: n, class mask.
    fn take_name(mut self, wide: bool, body: &[u8]) -> (Self, Result<(), Refusal>)
        requires { (length body.now ≡ 2) × (get_or body.now 0 0 < 32) }
        ensures refusal_value { number_in result.1 ≡ whole_refusal (sheet_of wide self) 1 body.now }
        ensures sheet_value { sheet_of wide result.0 ≡ handed_back (sheet_of wide self) 1 body.now }
    {
        let n = usize::from(body[0]);
        if self.masks[n] != 0 {
            return (self, Err(Refusal::DeclaredTwice));
        }
        self.masks[n] = body[1];
        (self, Ok(()))
    }

    // Kind 2: l, type, flag.
    fn take_label(mut self, wide: bool, body: &[u8]) -> (Self, Result<(), Refusal>)
        requires { (length body.now ≡ 3) × (get_or body.now 0 0 < labels wide) }
        ensures refusal_value { number_in result.1 ≡ whole_refusal (sheet_of wide self) 2 body.now }
        ensures sheet_value { sheet_of wide result.0 ≡ handed_back (sheet_of wide self) 2 body.now }
    {
        let l = usize::from(body[0]);
        if self.types[l] != 0 {
            return (self, Err(Refusal::DeclaredTwice));
        }
        self.types[l] = body[1];
        self.flags[l] = body[2];
        (self, Ok(()))
    }

    // Kind 3: l.
    fn take_forbid(mut self, wide: bool, body: &[u8]) -> (Self, Result<(), Refusal>)
        requires { (length body.now ≡ 1) × (get_or body.now 0 0 < labels wide) }
        ensures refusal_value { number_in result.1 ≡ whole_refusal (sheet_of wide self) 3 body.now }
        ensures sheet_value { sheet_of wide result.0 ≡ handed_back (sheet_of wide self) 3 body.now }
    {
        self.forbidden = sets::union(wide, self.forbidden, sets::single(wide, Label(body[0])));
        (self, Ok(()))
    }

    // Kind 4: l, this variable, six formals.
    fn take_function(mut self, wide: bool, body: &[u8]) -> (Self, Result<(), Refusal>)
        requires { (length body.now ≡ 8) × (get_or body.now 0 0 < labels wide) }
        ensures refusal_value { number_in result.1 ≡ whole_refusal (sheet_of wide self) 4 body.now }
        ensures sheet_value { sheet_of wide result.0 ≡ handed_back (sheet_of wide self) 4 body.now }
    {
        let l = usize::from(body[0]);
        if self.defined[l] != 0 {
            return (self, Err(Refusal::DeclaredTwice));
        }
        self.defined[l] = 1;
        let first = SEVEN * l;
        self.formals[first..first + SEVEN].copy_from_slice(&body[1..]);
        (self, Ok(()))
    }

    // Kind 5: v, owner scope, name.
    fn take_variable(mut self, wide: bool, body: &[u8]) -> (Self, Result<(), Refusal>)
        requires { (length body.now ≡ 3) × (get_or body.now 0 0 < 256) }
        ensures refusal_value { number_in result.1 ≡ whole_refusal (sheet_of wide self) 5 body.now }
        ensures sheet_value { sheet_of wide result.0 ≡ handed_back (sheet_of wide self) 5 body.now }
    {
        let v = usize::from(body[0]);
        if body[1] != 0 && body[2] != 255 {
            return (self, Err(Refusal::BadValue));
        }
        if self.owners[v] != 1 {
            return (self, Err(Refusal::DeclaredTwice));
        }
        self.owners[v] = body[1];
        self.names[v] = body[2];
        (self, Ok(()))
    }

    // Kind 9: c.
    fn take_profile(mut self, wide: bool, body: &[u8]) -> (Self, Result<(), Refusal>)
        requires { length body.now ≡ 1 }
        ensures refusal_value { number_in result.1 ≡ whole_refusal (sheet_of wide self) 9 body.now }
        ensures sheet_value { sheet_of wide result.0 ≡ handed_back (sheet_of wide self) 9 body.now }
    {
        if self.profile != NO_PROFILE {
            return (self, Err(Refusal::DeclaredTwice));
        }
        self.profile = body[0];
        (self, Ok(()))
    }

    // One record, whose fields are good, by the byte with which it begins: kinds 1 to 5 and 9 declare something, any other leaves the sheet as it is.
    pub fn take(self, wide: bool, kind: u8, body: &[u8]) -> (Self, Result<(), Refusal>)
        requires { Fits (labels wide) (sheet_of wide self) (fields_of kind) body.now }
        ensures refusal_value { number_in result.1 ≡ whole_refusal (sheet_of wide self) kind body.now }
        ensures sheet_value { sheet_of wide result.0 ≡ handed_back (sheet_of wide self) kind body.now }
    {
        match Kind::of(kind) {
            Some(Kind::Name) => self.take_name(wide, body),
            Some(Kind::Label) => self.take_label(wide, body),
            Some(Kind::Forbid) => self.take_forbid(wide, body),
            Some(Kind::Function) => self.take_function(wide, body),
            Some(Kind::Variable) => self.take_variable(wide, body),
            Some(Kind::Profile) => self.take_profile(wide, body),
            _ => (self, Ok(())),
        }
    }

    // Every label of type 2 has its function.
    #[tactic(auto, using(crate::proofs::Laws::lacking_any))]
    pub fn is_complete(&self, wide: bool) -> bool
        ensures { result ≡ not (lacking (sheet_of wide self.now).types (sheet_of wide self.now).defined) }
    {
        let n = rows::labels(wide);
        !lacks(&self.types[..n], &self.defined[..n])
    }
}
