//! Laws on what one exchange measures.

ghost use Rattle.gptp_pdelay_machine.specs.ExchangeLaws.{ExchangesAreGood, ExchangesShowNeighbor};

/// One exchange over a good link, between two clocks within their limits, gives a delay of at most the threshold. Where
/// two readings of a clock are off by w ns, the link is good with w more.
pub fn exchanges_are_good()
    ensures { ExchangesAreGood }
{}

/// What a peer measures by such an exchange shows the neighbour, unless it is the first since the reset.
pub fn exchanges_show_neighbor()
    ensures { ExchangesShowNeighbor }
{}
