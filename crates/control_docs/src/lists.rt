// Lists of documents that are written one document after another.
ghost use Rattle.std.specs.Prelude.{◌≡◌, ◌∷◌, ◌++◌, [], List, length, OnOk, OnErr};
ghost use Rattle.serde_json.specs.Data.{Data, array};
ghost use Rattle.serde_json.specs.View.{items_of};
ghost use Rattle.serde_json.specs.Written.{compact_text};
ghost use Rattle.control_docs.specs.Lists.{list_front, separator};

use gno_num::Memory;

/// Begins a list of documents. After `Memory` nothing is appended; so with the next two.
pub fn begin_list(out: &mut Vec<u8>) -> Result<(), Memory>
    ensures ok { OnOk result (out.new.items ≡ out.old.items ++ list_front []) }
    ensures err { OnErr result (out.new.items ≡ out.old.items) }
{
    out.push(b'[')?;
    Ok(())
}

/// Goes on behind so many documents: with a comma, but in front of the first.
pub fn next_in_list(count: usize, out: &mut Vec<u8>) -> Result<(), Memory>
    ensures ok { OnOk result (out.new.items ≡ out.old.items ++ separator count) }
    ensures err { OnErr result (out.new.items ≡ out.old.items) }
{
    if count > 0 {
        out.push(b',')?;
    }
    Ok(())
}

/// Ends a list of documents.
pub fn end_list(out: &mut Vec<u8>) -> Result<(), Memory>
    ensures ok { OnOk result (out.new.items ≡ out.old.items ++ 93 ∷ []) }
    ensures err { OnErr result (out.new.items ≡ out.old.items) }
{
    out.push(b']')?;
    Ok(())
}

/// What a list is when it is written so.
pub fn lists_are_written()
    ensures next { (documents : List Data) (document : Data) → list_front (documents ++ document ∷ [])
        ≡ list_front documents ++ separator (length documents) ++ compact_text document }
    ensures whole { (documents : List Data) → list_front documents ++ 93 ∷ [] ≡ compact_text (array (items_of documents)) }
{}
