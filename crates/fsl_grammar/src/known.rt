//! Facts on values, for proofs alone. These calls prove to their caller that the names in a value have 20 bytes, and foreign
//! names 32, as `Name::bytes` and `Ref::bytes` do. They change nothing and return nothing.
ghost use Rattle.std.specs.Prelude.{option_to_list};
ghost use Rattle.std.specs.List.{AllByRecursion};
ghost use Rattle.fsl_name.specs.Name.{IsName};
ghost use Rattle.fsl_name.specs.Ref.{IsRef};

use crate::TagCard;
use fsl_name::{Name, Ref};

/// Says that an optional name is a name if it is there.
pub fn know_name(name: &Option<Name>)
    ensures { AllByRecursion IsName (option_to_list name.now) }
{
    if let Some(name) = name {
        let _ = name.bytes();
    }
}

/// Says that an optional reference is a reference if it is there.
pub fn know_ref(reference: &Option<Ref>)
    ensures { AllByRecursion IsRef (option_to_list reference.now) }
{
    if let Some(found) = reference {
        let _ = found.bytes();
    }
}

/// Says that references are references.
pub fn know_refs(refs: &[Ref])
    ensures { AllByRecursion IsRef refs.now }
{
    for found in refs {
        let _ = found.bytes();
    }
}

/// Says that the targets of tags are references.
pub fn know_tags(tags: &[TagCard])
    ensures { AllByRecursion (λ t. AllByRecursion IsRef (option_to_list t.target)) tags.now }
{
    for tag in tags {
        know_ref(&tag.target);
    }
}
