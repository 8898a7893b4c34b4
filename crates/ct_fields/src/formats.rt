//! The formats of documents.
ghost use Rattle.std.specs.Prelude.{◌≡◌};
ghost use Rattle.toml.specs.View.{view};
ghost use Rattle.ct_fields.specs.Format.{format_of, may_cite};

use crate::entry::has_field;
use crate::fault::DocumentFault;
use crate::field::FieldName;
use crate::fields::number_field;
use toml::Value;

/// The format of the document: 1 or 2, as it says at the key `format`, and 1 where the key is left out.
pub fn format_of(document: &Value) -> Result<u32, DocumentFault>
    ensures { result ≡ format_of (view document.now) }
{
    if !has_field(document, FieldName::Format) {
        return Ok(1);
    }
    number_field(document, FieldName::Format, 1, 2)
}

/// Whether the document says that it is of format 2, the one that may cite.
pub fn may_cite(document: &Value) -> bool
    ensures { result ≡ may_cite (view document.now) }
{
    number_field(document, FieldName::Format, 2, 2).is_ok()
}
