// One pass: every rule of a file once, those that no record says and those of the records.
#![tactic(auto)]

ghost use Rattle.std.specs.Prelude.{length};
ghost use Rattle.rows.specs.Edition.{labels};
ghost use Rattle.format.specs.Reading.{Readable};
ghost use Rattle.program.specs.Program.{Program, program_in};
ghost use Rattle.uses.specs.Use.{Lent, tells};
ghost use Rattle.host.specs.Lays.{Known};
ghost use Rattle.shared.specs.Apply.{Applies};
ghost use Rattle.passes.specs.Order.{line_rules, PassOf};

use crate::guest::{GUEST, guest};
use crate::walk::host_rules;
use host::Host;
use lines::{chain_lines, guest_line};

mod guest;
mod walk;

// The rules that no record says: the P line, the guest's prototypes, the guest's statements.
pub fn lines(t: &mut [u64], o: usize, wide: bool, host: &Host, keeps: &mut [u64; 256]) -> bool
    requires { Lent wide o (length t.old) }
    ensures { (p : Program) → Known wide p host.now → Applies wide o p (tells wide (line_rules (labels wide) p)) t.old keeps.old t.new keeps.new result }
{
    let chains = chain_lines(t, o, wide, &host.sheet.types, keeps);
    let prototypes = guest_line(t, o, wide, GUEST);
    let said = guest(t, o, wide, host, keeps);
    chains | (prototypes | said)
}

// Every rule once.
pub fn pass(
    t: &mut [u64],
    o: usize,
    wide: bool,
    host: &Host,
    keeps: &mut [u64; 256],
    file: &[u8],
) -> bool
    requires { Lent wide o (length t.old) × Readable (labels wide) file.now }
    ensures { Known wide (program_in (labels wide) file.now) host.now → PassOf wide o file.now t.old keeps.old t.new keeps.new result }
{
    let a = lines(t, o, wide, host, keeps);
    let b = host_rules(t, o, wide, host, keeps, file);
    a | b
}
