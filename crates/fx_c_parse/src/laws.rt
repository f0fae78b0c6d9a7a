//! What the grammar and the reading of it mean together.

ghost use Rattle.fx_c_parse.specs.Exact.{IsComplete, IsOneTree, IsSound};

/// The declarations that are read are those of the grammar, and a text has one tree at most.
pub fn reads_the_grammar()
    ensures sound { IsSound }
    ensures complete { IsComplete }
    ensures one_tree { IsOneTree }
{}
