//! One run, written out, and what it measures.

ghost use Rattle.gptp_pdelay_machine.specs.Example.{TwoExchangesMakeCapable};
ghost use Rattle.gptp_pdelay_machine.specs.MeterExample.{TwoExchangesMeasure};

/// After a request that was lost, two exchanges, step by step: the port is capable after the second, and not after the
/// first. So the machine has runs, and what its laws suppose can all hold at once.
pub fn two_exchanges()
    ensures { TwoExchangesMakeCapable }
{}

/// What the same two exchanges measure: the first the delay alone, and the second the rate of the neighbour's clock
/// too.
pub fn two_measurements()
    ensures { TwoExchangesMeasure }
{}
