//! The fields of an entry in a document.
ghost use Rattle.std.specs.Prelude.{◌≡◌};
ghost use Rattle.toml.specs.View.{view};
ghost use Rattle.ct_words.specs.declared.limits.TheConstants.{MAX_N};
ghost use Rattle.ct_fields.specs.declared.field.FieldName.TheVariants as name;
ghost use Rattle.ct_fields.specs.Fields.{has_field};
ghost use Rattle.ct_fields.specs.Schema.{needed, optional};
ghost use Rattle.ct_fields.specs.EntrySchema.{number_form, distance_form};

use crate::fault::DocumentFault;
use crate::field::FieldName;
use crate::fields::number_field;
use ct_words::MAX_N;
use toml::Value;

/// Whether the document has the key of the field, whatever its value.
pub fn has_field(document: &Value, name: FieldName) -> bool
    ensures { result ≡ has_field name (view document.now) }
{
    document.get(name.text()).is_some()
}

/// The length of the words, from 1 to `MAX_N`.
pub fn length_field(document: &Value) -> Result<u32, DocumentFault>
    ensures { result ≡ needed (number_form name.N 1 MAX_N) (view document.now) }
{
    number_field(document, FieldName::N, 1, MAX_N)
}

/// The distance, from 3 to `MAX_N`, and even if it has to be.
pub fn distance_field(even: bool, document: &Value) -> Result<u32, DocumentFault>
    ensures { result ≡ needed (distance_form even) (view document.now) }
{
    let d = number_field(document, FieldName::D, 3, MAX_N)?;
    if even && d % 2 == 1 {
        return Err(DocumentFault::Field(FieldName::D));
    }
    Ok(d)
}

/// The weight of words of length `n`, from 0 to `n`, if the document has the key.
pub fn weight_field(n: u32, document: &Value) -> Result<Option<u32>, DocumentFault>
    ensures { result ≡ optional (number_form name.W 0 n) (view document.now) }
{
    if !has_field(document, FieldName::W) {
        return Ok(None);
    }
    let w = number_field(document, FieldName::W, 0, n)?;
    Ok(Some(w))
}
