// The kinds of record of a statement file, as one table: of which class each byte of a body is (document 01, "The statement file"). A new kind of
// record is a variant and a row here, in specs/Kinds.antt and in specs/Layout.antt.
#![tactic(auto)]

ghost use Rattle.std.specs.Prelude.{◌≡◌, MatchOption, map};
ghost use Rattle.layout.specs.Layout.{fields_of, body_length};
ghost use Rattle.layout.specs.Key.{is_key};
ghost use Rattle.layout.specs.Kinds.{number_of, class_meant};

// "at most 32,768 bytes": the longest file that is read.
pub const LONGEST: usize = 32768;

// The kinds of record, each by its number.
#[derive(Clone, Copy, PartialEq, Eq)]
pub enum Kind {
    Name = 1,
    Label = 2,
    Forbid = 3,
    Function = 4,
    Variable = 5,
    Grant = 6,
    Property = 7,
    Held = 8,
    Profile = 9,
    Copy = 16,
    Load = 17,
    Store = 18,
    Make = 19,
    MakeFunction = 20,
    Call = 21,
    New = 22,
    Return = 23,
    Throw = 24,
    Catch = 25,
    Prim = 26,
}

// What a field's byte may be. The crate fields says which bytes are good.
#[derive(Clone, Copy, PartialEq, Eq)]
pub enum Class {
    // a name: 0 to 31
    Name,
    // a class mask: bit 0 is set
    Mask,
    // a label to declare: from 5 up
    NewLabel,
    // a label's type: 1 plain, 2 function, 3 array
    Type,
    // 1 built-in, else 0
    Flag,
    // a declared label
    AnyLabel,
    // a declared label other than 3
    HostLabel,
    // a declared label from 5 up, of type 2
    FunctionLabel,
    // a declared label from 5 up, of type 1
    PlainLabel,
    // a declared label from 5 up, of type 1 or 3
    DataLabel,
    // 0, or a declared label from 5 up, of type 2
    Scope,
    // a variable to declare: 2 to 255
    NewVariable,
    // 0, or a declared variable
    Variable,
    // a declared variable
    DeclaredVariable,
    // a declared variable whose owner is scope 0
    GlobalVariable,
    // a name, or 255 for none
    VariableName,
    // a class of names: 0 to 7
    NameClass,
    // a name, all names of a class, or all names outside it
    Key,
}

impl Kind {
    // The kind that a record's first byte says, if there is one.
    pub fn of(byte: u8) -> Option<Kind>
        ensures { MatchOption result (body_length byte ≡ 0) (λ k. number_of k ≡ byte) }
    {
        match byte {
            1 => Some(Kind::Name),
            2 => Some(Kind::Label),
            3 => Some(Kind::Forbid),
            4 => Some(Kind::Function),
            5 => Some(Kind::Variable),
            6 => Some(Kind::Grant),
            7 => Some(Kind::Property),
            8 => Some(Kind::Held),
            9 => Some(Kind::Profile),
            16 => Some(Kind::Copy),
            17 => Some(Kind::Load),
            18 => Some(Kind::Store),
            19 => Some(Kind::Make),
            20 => Some(Kind::MakeFunction),
            21 => Some(Kind::Call),
            22 => Some(Kind::New),
            23 => Some(Kind::Return),
            24 => Some(Kind::Throw),
            25 => Some(Kind::Catch),
            26 => Some(Kind::Prim),
            _ => None,
        }
    }

    // The byte with which its records begin.
    pub fn number(self) -> u8
        ensures { result ≡ number_of self }
    {
        self as u8
    }

    // The class of each byte of its body, from the left.
    pub fn fields(self) -> &'static [Class]
        ensures { map class_meant result.now ≡ fields_of (number_of self) }
    {
        use Class::{
            AnyLabel, DataLabel, DeclaredVariable, Flag, FunctionLabel, GlobalVariable, HostLabel,
            Key, Mask, Name, NameClass, NewLabel, NewVariable, PlainLabel, Scope, Type, Variable,
            VariableName,
        };
        match self {
            Kind::Name => &[Name, Mask],
            Kind::Label => &[NewLabel, Type, Flag],
            Kind::Forbid => &[AnyLabel],
            // the label, this and six formals
            Kind::Function => &[
                FunctionLabel,
                Variable,
                Variable,
                Variable,
                Variable,
                Variable,
                Variable,
                Variable,
            ],
            Kind::Variable => &[NewVariable, Scope, VariableName],
            Kind::Grant => &[GlobalVariable],
            Kind::Property => &[HostLabel, Name, HostLabel],
            Kind::Held => &[GlobalVariable, HostLabel],
            Kind::Profile => &[NameClass],
            Kind::Copy => &[Scope, Variable, Variable],
            Kind::Load => &[Scope, Variable, Variable, Key, PlainLabel],
            Kind::Store => &[Scope, Variable, Key, Variable],
            Kind::Make => &[Scope, Variable, DataLabel],
            Kind::MakeFunction => &[Scope, Variable, FunctionLabel, PlainLabel],
            // the scope, y, the callee, this and six arguments
            Kind::Call => &[
                Scope, Variable, Variable, Variable, Variable, Variable, Variable, Variable,
                Variable, Variable,
            ],
            // the scope, y, the callee, t, the label and six arguments
            Kind::New => &[
                Scope,
                Variable,
                Variable,
                DeclaredVariable,
                PlainLabel,
                Variable,
                Variable,
                Variable,
                Variable,
                Variable,
                Variable,
            ],
            Kind::Return | Kind::Throw | Kind::Catch | Kind::Prim => &[Scope, Variable],
        }
    }
}

// How long the body of one kind is, 0 where the byte is no kind.
pub fn body_length(kind: u8) -> usize
    ensures { result ≡ body_length kind }
{
    match Kind::of(kind) {
        Some(kind) => kind.fields().len(),
        None => 0,
    }
}

// The key of class 0, every name; those of classes 1 to 7 follow.
pub const INSIDE: u8 = 128;

// The key of the names outside class 0, none; those outside classes 1 to 7 follow.
pub const OUTSIDE: u8 = 136;

// How many classes of names there are.
pub const CLASS_COUNT: u8 = 8;

// The first byte behind the keys.
const KEYS_END: u8 = 144;

// Whether the byte is a key.
pub fn is_key(b: u8) -> bool
    ensures { result ≡ is_key b }
{
    b < 32 || (INSIDE <= b && b < KEYS_END)
}
