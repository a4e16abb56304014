//! Laws about the definitions, as the contracts of functions that do nothing.

ghost use Rattle.std.specs.Prelude.{◌≡◌, Some};
ghost use Rattle.serde_json.specs.Data.{Data};
ghost use Rattle.serde_json.specs.Written.{compact_text};
ghost use Rattle.pce_protocol.specs.declared.id.Id.{Id};
ghost use Rattle.pce_protocol.specs.Ids.{id_of, id_data};

/// An id is given back as it came: a reply writes it as the request's value is written without spaces.
pub fn ids_are_given_back()
    ensures { (d : Data) (id : Id) → id_of d ≡ Some id
        → compact_text (id_data id) ≡ compact_text d }
{}
