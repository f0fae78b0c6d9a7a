//! Laws of places.

ghost use Rattle.fx_c_mean_places_law.specs.Laws.{LiveObjectsStand, ObjectsStandApart, BytesHaveOneAddress};
ghost use Rattle.fx_c_mean_places_law.specs.Laws.{ResolvedRightsAreOf, NamesAreOne};

/// Each live object of a state of a run stands somewhere, where a step follows in each thread.
pub fn live_objects_stand()
    ensures { LiveObjectsStand }
{}

/// Two objects of a state of a run have no byte in common, so an address is that of one byte of one object.
pub fn objects_stand_apart()
    ensures apart { ObjectsStandApart }
    ensures bytes { BytesHaveOneAddress }
{}

/// The rights of a resolved configuration put each function into one of its compartments, with its stacks.
pub fn resolved_rights_are_of()
    ensures { ResolvedRightsAreOf }
{}

/// For one run of the source at most one place of an image is named, and it stands for one byte of one object.
pub fn names_are_one()
    ensures { NamesAreOne }
{}
