// The rules of the records, in the order of the file.
ghost use Rattle.std.specs.Prelude.{length};
ghost use Rattle.rows.specs.Edition.{labels};
ghost use Rattle.format.specs.Reading.{Readable};
ghost use Rattle.program.specs.Program.{Program};
ghost use Rattle.uses.specs.Use.{Lent, tells};
ghost use Rattle.host.specs.Lays.{Serves};
ghost use Rattle.shared.specs.Apply.{Applies};
ghost use Rattle.passes.specs.Order.{record_rules};

use host::Host;

// One use of the rules of every record.
pub fn host_rules(
    t: &mut [u64],
    o: usize,
    wide: bool,
    host: &Host,
    keeps: &mut [u64; 256],
    file: &[u8],
) -> bool
    requires { Lent wide o (length t.old) × Readable (labels wide) file.now }
    ensures { (p : Program) → Serves wide p host.now → Applies wide o p (tells wide (record_rules (labels wide) p file.now)) t.old keeps.old t.new keeps.new result }
{
    let mut grew = false;
    for at in records::positions(file) {
        let s = records::statement_at(wide, file, at);
        grew |= apply::apply(t, o, wide, host, keeps, s);
    }
    grew
}
