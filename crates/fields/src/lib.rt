// The test of a field's byte: whether it is good in its class, judged by the label types and the variables' owners so far, and with what it is refused
// (document 01, "What each operation says no to"). The classes are those of the crate layout. `wide` says which edition it is: how many labels there
// are, and how many of the label types count.
#![tactic(auto)]

ghost use Rattle.std.specs.Prelude.{◌≡◌, ◌&&◌, ◌≤◌, get_or, length, take, leb, eqb};
ghost use Rattle.rows.specs.Edition.{labels};
ghost use Rattle.layout.specs.Kinds.{class_meant};
ghost use Rattle.answer.specs.Answer.{number_of};
ghost use Rattle.format.specs.Fields.{good, refusal_of};
ghost use Rattle.fields.specs.Judging.{judging, field_refusal, number_in};

use answer::Refusal;
use layout::Class;

// The type of label b, 0 where it is not declared.
fn type_of(types: &[u8], b: u8) -> u8
    ensures { result ≡ get_or types.now b 0 }
{
    types.get(usize::from(b)).copied().unwrap_or(0)
}

// The owner of variable b, 1 where it is not declared.
pub fn owner_of(owners: &[u8], b: u8) -> u8
    ensures { result ≡ get_or owners.now b 1 }
{
    owners.get(usize::from(b)).copied().unwrap_or(1)
}

// The label is declared, from 5 up, and of type t.
fn is_made(types: &[u8], b: u8, t: u8) -> bool
    ensures { result ≡ (leb 5 b && eqb (get_or types.now b 0) t) }
{
    5 <= b && type_of(types, b) == t
}

// Byte b is good in a field of the class.
#[tactic(auto, unfolding(format::specs::Fields::good))]
pub fn is_good(wide: bool, types: &[u8], owners: &[u8], class: Class, b: u8) -> bool
    ensures { result ≡ good (labels wide) (judging types.now owners.now) (class_meant class) b }
{
    match class {
        Class::Name => b < 32,
        Class::Mask => b % 2 == 1,
        Class::NewLabel => 5 <= b && usize::from(b) < rows::labels(wide),
        Class::Type => matches!(b, 1..=3),
        Class::Flag => b <= 1,
        Class::AnyLabel => type_of(types, b) != 0,
        Class::HostLabel => b != 3 && type_of(types, b) != 0,
        Class::FunctionLabel => is_made(types, b, 2),
        Class::PlainLabel => is_made(types, b, 1),
        Class::DataLabel => 5 <= b && matches!(type_of(types, b), 1 | 3),
        Class::Scope => b == 0 || is_made(types, b, 2),
        Class::NewVariable => 2 <= b,
        Class::Variable => b == 0 || owner_of(owners, b) != 1,
        Class::DeclaredVariable => owner_of(owners, b) != 1,
        Class::GlobalVariable => owner_of(owners, b) == 0,
        Class::VariableName => b == 255 || b < 32,
        Class::NameClass => b < layout::CLASS_COUNT,
        Class::Key => layout::is_key(b),
    }
}

// With what a bad byte in a field of the class is refused.
#[tactic(auto, unfolding(format::specs::Fields::refusal_of))]
fn refusal_of(class: Class) -> Refusal
    ensures { number_of result ≡ refusal_of (class_meant class) }
{
    match class {
        Class::NewVariable | Class::Variable | Class::DeclaredVariable | Class::GlobalVariable =>
            Refusal::BadVariable,
        Class::NewLabel
        | Class::AnyLabel
        | Class::HostLabel
        | Class::FunctionLabel
        | Class::PlainLabel
        | Class::DataLabel
        | Class::Scope => Refusal::BadLabel,
        Class::Name
        | Class::Mask
        | Class::Type
        | Class::Flag
        | Class::VariableName
        | Class::NameClass
        | Class::Key => Refusal::BadValue,
    }
}

// Whether byte b may stand in a field of the class. Of the types those of the edition's labels count.
#[tactic(auto, unfolding(crate::specs::Judging::field_refusal))]
pub fn judge(wide: bool, types: &[u8], owners: &[u8], class: Class, b: u8) -> Result<(), Refusal>
    requires { labels wide ≤ length types.now }
    ensures { number_in result ≡ field_refusal (labels wide) (judging (take (labels wide) types.now) owners.now) (class_meant class) b }
{
    let counted = &types[..rows::labels(wide)];
    if is_good(wide, counted, owners, class, b) {
        Ok(())
    } else {
        Err(refusal_of(class))
    }
}
