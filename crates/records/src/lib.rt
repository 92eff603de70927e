// The records of a readable file: where the next one begins, and what each says, with its bytes as variables, labels and names.
#![tactic(auto)]

ghost use Rattle.std.specs.Prelude.{◌≡◌, ◌+◌, ◌-◌, ◌<◌, ◌≤◌, length, get_or};
ghost use Rattle.std.specs.Iterator.{at_most};
ghost use Rattle.rows.specs.Edition.{labels};
ghost use Rattle.layout.specs.Layout.{body_length};
ghost use Rattle.format.specs.Reading.{longest};
ghost use Rattle.program.specs.Program.{Program};
ghost use Rattle.records.specs.Range.{InRange};
ghost use Rattle.records.specs.Walk.{Walk, body_at};
ghost use Rattle.records.specs.Step.{Steps};
ghost use Rattle.records.specs.Say.{record_rule, rule_by, InBounds};
ghost use Rattle.records.specs.Parts.{site_in, statement_in};

use rows::{Label, Name, Var};

// What a call hands over: this, then six arguments.
pub type Inputs = [Var; 7];

// Where a function is called: the scope, the variable of the result, the callee, the inputs.
#[derive(Clone, Copy)]
pub struct Site {
    pub scope: Label,
    pub result: Var,
    pub callee: Var,
    pub inputs: Inputs,
}

// What a record says to the rules (document 01, "The statement file"); records that only declare say nothing.
#[derive(Clone, Copy)]
pub enum Statement {
    Nothing,
    // 5: v, name
    Named(Var, Name),
    // 6: v
    Grant(Var),
    // 7: l, n, l'
    Property(Label, Name, Label),
    // 8: v, l
    Held(Var, Label),
    // 16: y, source
    Copy(Var, Var),
    // 17: y, object, key, w
    Load(Var, Var, u8, Label),
    // 18: object, key, value
    Store(Var, u8, Var),
    // 19: y, l
    Make(Var, Label),
    // 20: y, l, q
    MakeFunction(Var, Label, Label),
    // 21
    Call(Site),
    // 22: with t as this, and l
    New(Site, Label),
    // 23: its facts are the calls'
    Return,
    // 24: k, value
    Throw(Label, Var),
    // 25: k, y
    Catch(Label, Var),
    // 26: k, object
    Convert(Label, Var),
}

// The call of a body whose arguments begin at byte `first`.
fn call_site(body: &[u8], first: usize) -> Site
    requires { (4 ≤ first) × (length body.now ≡ first + 6) }
    ensures { result ≡ site_in body.now first }
{
    Site {
        scope: Label(body[0]),
        result: Var(body[1]),
        callee: Var(body[2]),
        inputs: [
            Var(body[3]),
            Var(body[first]),
            Var(body[first + 1]),
            Var(body[first + 2]),
            Var(body[first + 3]),
            Var(body[first + 4]),
            Var(body[first + 5]),
        ],
    }
}

// What the record of this kind and body says: a line for each kind. Byte 0 of kinds 16 to 20 is the scope, which no rule reads.
#[tactic(auto, unfolding(program::specs::Statement::statements_of))]
pub fn statement_of(wide: bool, kind: u8, body: &[u8]) -> Statement
    requires { InRange (labels wide) kind body.now }
    ensures read { result ≡ statement_in kind body.now }
    ensures body_value { (p : Program) → record_rule p kind body.now ≡ rule_by p result }
    ensures in_bounds { InBounds (labels wide) result }
{
    match kind {
        5 if body[2] != 255 => Statement::Named(Var(body[0]), Name(body[2])),
        6 => Statement::Grant(Var(body[0])),
        7 => Statement::Property(Label(body[0]), Name(body[1]), Label(body[2])),
        8 => Statement::Held(Var(body[0]), Label(body[1])),
        16 => Statement::Copy(Var(body[1]), Var(body[2])),
        17 => Statement::Load(Var(body[1]), Var(body[2]), body[3], Label(body[4])),
        18 => Statement::Store(Var(body[1]), body[2], Var(body[3])),
        19 => Statement::Make(Var(body[1]), Label(body[2])),
        20 => Statement::MakeFunction(Var(body[1]), Label(body[2]), Label(body[3])),
        21 => Statement::Call(call_site(body, 4)),
        22 => Statement::New(call_site(body, 5), Label(body[4])),
        23 => Statement::Return,
        24 => Statement::Throw(Label(body[0]), Var(body[1])),
        25 => Statement::Catch(Label(body[0]), Var(body[1])),
        26 => Statement::Convert(Label(body[0]), Var(body[1])),
        _ => Statement::Nothing,
    }
}

// Where the record after the one at `at` begins.
fn after(file: &[u8], at: usize) -> usize
    requires { at < length file.now }
    ensures { result ≡ at + 1 + body_length (get_or file.now at 0) }
{
    at + 1 + layout::body_length(file[at])
}

// Where a walk over the records of a file stands.
#[derive(Drop)]
pub struct Cursor<'a> {
    pub file: &'a [u8],
    pub at: usize,
}

impl<'a> Iterator for Cursor<'a> {
    type Item = usize;

    ghost next_gives = { Steps };

    ghost remaining = { λ s. at_most (length s.file.now - s.at) };

    fn next(&mut self) -> Option<usize> {
        let Cursor { file, at } = *self;
        if at >= file.len() {
            return None;
        }
        self.at = after(file, at);
        Some(at)
    }
}

// The positions of the records of a file, in order.
pub fn positions(file: &[u8]) -> Cursor
    ensures { (result.file.now ≡ file.now) × (result.at ≡ 0) }
{
    Cursor { file, at: 0 }
}

// What the record at `at` says.
pub fn statement_at(wide: bool, file: &[u8], at: usize) -> Statement
    requires { Walk (labels wide) file.now at × (at < length file.now) × (length file.now ≤ longest) }
    ensures at_value { (p : Program) → record_rule p (get_or file.now at 0) (body_at file.now at) ≡ rule_by p result }
    ensures in_bounds { InBounds (labels wide) result }
{
    statement_of(wide, file[at], &file[at + 1..after(file, at)])
}
