//! What holds of documents of stations.

ghost use Rattle.std.specs.Prelude.{ℕ, List};
ghost use Rattle.station_documents.specs.Documents.{StatesOnce};

/// A document states one list of edits at most.
pub fn documents_state_one_list()
    ensures { (bytes : List ℕ) → StatesOnce bytes }
{}
