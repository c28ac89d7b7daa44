// The law of the lines that are told of a contradiction.
ghost use Rattle.tx_requests.specs.DeclaringLines.{CodesAreDeclared, GroupsAreDeclared};

/// Of each code and each group of the plan that a text says, the line that is told of a
/// contradiction is one of the text, and declares it. Does nothing: its contract is a law.
pub fn told_lines_declare()
    ensures codes { CodesAreDeclared }
    ensures groups { GroupsAreDeclared }
{}
