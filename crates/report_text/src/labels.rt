//! What stands before the fields' values in the line of a packet.
ghost use Rattle.std.specs.Prelude.{◌≡◌, map, IfOk};
ghost use Rattle.report_text.specs.Report.{label};

use mp5_words::{FieldNames, Name, NoMemory};
use sqlite_items::Items;
use std::alloc::{AllocError, Global};

/// The label of each field, put together once for all packets.
pub fn labels_of(alloc: Global, names: &FieldNames) -> Result<Vec<Items<u8>>, NoMemory>
    ensures { IfOk result (λ labels. labels.items ≡ map label names.now) }
{
    Ok(all_labels(alloc, names)?)
}

fn all_labels(alloc: Global, names: &FieldNames) -> Result<Vec<Items<u8>>, AllocError>
    ensures { IfOk result (λ labels. labels.items ≡ map label names.now) }
{
    let mut labels = Vec::new(alloc);
    for i in 0..names.count() {
        labels.push(label_of(alloc, names.name(i))?)?;
    }
    Ok(labels)
}

// A space, the field's name and `=`.
fn label_of(alloc: Global, name: &Name) -> Result<Items<u8>, AllocError>
    ensures { IfOk result (λ text. text ≡ label name.now) }
{
    let mut text = Vec::new(alloc);
    text.push(b' ')?;
    text.extend_from_slice(name.bytes())?;
    text.push(b'=')?;
    Ok(Items::from_vec(text))
}
