// Laws of the definitions, which no code runs.
ghost use Rattle.tuples_traffic.specs.Laws.{AcceptedLaw, LineOrderLaw, SizeLaw};

/// The file of a plan is accepted whole.
pub fn accepted_law()
    ensures { AcceptedLaw }
{}

/// The lines stand in the order of Time, vehicle and type.
pub fn line_order_law()
    ensures { LineOrderLaw }
{}

/// The file has at most 200,000 lines, and 40,000,000 bytes.
pub fn size_law()
    ensures { SizeLaw }
{}
