// A record as its fields: reading and writing, requests and messages alike.
ghost use Rattle.std.specs.Prelude.{◌≡◌};
ghost use Rattle.question.specs.Question.{map_answer, after, verdict};
ghost use Rattle.question.specs.Refusals.{answer_of};
ghost use Rattle.layout.specs.declared.fields.Fields.{Fields as RecordFields};
ghost use Rattle.record.specs.declared.kind.Family.{Family as RecordFamily};
ghost use Rattle.record.specs.Record.{read_fields, write_fields};

use crate::check::Scope;
use crate::kind::Family;
use layout::Fields;
use question::Refusal;

// A type that stands for the fields of the records of one family.
pub(crate) trait Record: From<Fields> + Into<Fields> + Copy {
    const FAMILY: Family;

    ghost FAMILY: { RecordFamily };

    ghost of: { RecordFields → Self };

    ghost into: { Self → RecordFields };

    // The conversions are these two functions.
    ghost from_is: { (f : RecordFields) (r : Self) → Self.from_gives f r → r ≡ of f };

    ghost into_is: { (r : Self) (f : RecordFields) → Self.converts r f → f ≡ into r };
}

pub(crate) fn read<R: Record>(k: u8, n: u8, bytes: &[u8]) -> Result<R, Refusal>
    ensures { answer_of result ≡ map_answer R.of (read_fields R.FAMILY k n bytes.now) }
{
    let scope = Scope {
        family: R::FAMILY,
        k,
        n,
    };
    scope.check_length(bytes.len())?;
    let f = Fields::of_bytes(bytes);
    scope.check_fields(f)?;
    Ok(R::from(f))
}

// Writes the first 24 bytes of the destination, or refuses and writes nothing.
pub(crate) fn write<R: Record>(k: u8, n: u8, r: R, destination: &mut [u8]) -> Result<(), Refusal>
    ensures answer { answer_of result ≡ verdict (write_fields R.FAMILY k n (R.into r) destination.old) }
    ensures content { destination.new ≡ after destination.old (write_fields R.FAMILY k n (R.into r) destination.old) }
{
    let scope = Scope {
        family: R::FAMILY,
        k,
        n,
    };
    let f = r.into();
    scope.check_write(f, destination.len())?;
    f.put(destination);
    Ok(())
}
