//! Laws of the texts: each function's contract is the law.

ghost use Rattle.oat_report.specs.SameLines.{OneEdgeALine, OnePathOfLines, ShapedMapsAreTold, WalksTakeEdges};
ghost use Rattle.oat_report.specs.WorkedLines.{WorkedLines};

/// The lines of a worked path are as they are written.
pub fn worked_lines()
    ensures { WorkedLines }
{}

/// Two edges of a map with one line are the same edge, strays included; the edges of walks are edges of their map.
pub fn one_edge_a_line()
    ensures walked { WalksTakeEdges }
    ensures shaped { ShapedMapsAreTold }
    ensures one { OneEdgeALine }
    ensures paths { OnePathOfLines }
{}
