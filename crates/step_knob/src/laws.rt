// What holds of any number of turns.
ghost use Rattle.step_knob.specs.Walk.{TurnsListTheEdges};

/// From any walker that is not turned down, turns until none is left end, and list the edges from its place on, each once, rising.
pub fn turns_list_the_edges()
    ensures { TurnsListTheEdges }
{}
