//! A row as an object of JSON.
ghost use Rattle.std.specs.Prelude.{◌≡◌, ◌++◌, ◌∷◌, [], IfOk};
ghost use Rattle.json.specs.Print.{print};
ghost use Rattle.json.specs.Token.{begin_object, end_object};
ghost use Rattle.cron_tab_rows.specs.Writing.{Begins};

use json::Writer;
use std::alloc::AllocError;

/// Begins an object after what `row` has.
pub fn begin(row: Vec<u8>) -> Result<Writer, AllocError>
    ensures { IfOk result (Begins row.items) }
{
    let mut object = Writer::new(row);
    object.begin_object()?;
    Ok(object)
}

/// Ends an object and its line, and returns it after what stood before.
pub fn end(mut object: Writer) -> Result<Vec<u8>, AllocError>
    ensures { IfOk result (λ row. row.items
        ≡ object.before ++ (print (object.tokens ++ end_object ∷ []) ++ 10 ∷ [])) }
{
    object.end_object()?;
    let mut row = object.into_inner();
    row.push(b'\n')?;
    Ok(row)
}
