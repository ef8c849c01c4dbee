//! What one exchange of messages measures.

ghost use Rattle.std.specs.Prelude.{◌≡◌, ◌-ℤ◌};
ghost use Rattle.std.specs.Option.{ForSome};
ghost use Rattle.gptp_scaled.specs.Rate.{IsNeighborRate, scaled_by};
ghost use Rattle.gptp_scaled.specs.ScaledNs.{FitsScaled};
ghost use Rattle.gptp_pdelay.specs.Clock.{IsTime};
ghost use Rattle.gptp_pdelay.specs.Exchange.{AreTimes, IsCarriedTime, IsMeasured, times_of};
ghost use Rattle.gptp_pdelay.specs.Exchange.{carried_time, mean_delay, measurement_of, neighbor_rate, shows_neighbor};

use crate::progress::{Request, Response};
use gptp_scaled::{Interval, Rate, ScaledNs, Stamp};

/// The times of an exchange that the rate of a later one is measured since.
#[derive(Clone, Copy, Debug, PartialEq, Eq, Hash, Default)]
pub struct Times {
    /// When the response was sent, by the responder's clock.
    pub t3: ScaledNs,
    /// When it came, by the requester's clock.
    pub t4: ScaledNs,
}

/// What a full exchange measured, with those of its times that later ones need.
#[derive(Clone, Copy, Debug, PartialEq, Eq, Hash)]
pub struct Measurement {
    pub t3: ScaledNs,
    pub t4: ScaledNs,
    pub rate: Rate,
    pub delay: ScaledNs,
    /// Whether another exchange came before it since the reset.
    pub again: bool,
}

impl Measurement {
    /// What the exchange of this request and its response measures, which was sent at `t3`: the rate since an earlier
    /// exchange. `again` says whether another exchange came before it since the reset.
    pub fn of(
        since: Option<Times>,
        again: bool,
        request: &Request,
        response: &Response,
        t3: ScaledNs,
    ) -> Measurement
        requires since { ForSome since AreTimes }
        requires t1 { IsTime request.now.t1 }
        requires t2 { IsCarriedTime response.now.t2 }
        requires t3 { IsCarriedTime t3 }
        requires t4 { IsTime response.now.t4 }
        ensures measurement { result ≡ measurement_of since again request.now response.now t3 }
        ensures measured { IsMeasured result }
    {
        let rate = neighbor_rate(since, t3, response.t4);
        let delay = mean_delay(
            rate,
            elapsed(request.t1, response.t4),
            elapsed(response.t2, t3),
        );
        Measurement {
            t3,
            t4: response.t4,
            rate,
            delay,
            again,
        }
    }

    /// Its times that later ones need.
    pub fn times(&self) -> Times
        ensures { result ≡ times_of self.now }
    {
        Times {
            t3: self.t3,
            t4: self.t4,
        }
    }

    /// Whether it shows that the neighbour is there and near, by a threshold in ns.
    pub fn shows_neighbor(&self, threshold: u64) -> bool
        ensures { result ≡ shows_neighbor threshold self.now }
    {
        self.again && self.delay.value() <= i128::from(threshold) << 16
    }
}

/// The time that a message carries, in its timestamp and its correctionField.
pub fn carried_time(stamp: Stamp, correction: i64) -> ScaledNs
    ensures time { result ≡ carried_time stamp correction }
    ensures range { IsCarriedTime result }
{
    stamp
        .scaled()
        .checked_add(Interval::new(correction).scaled())
        .unwrap()
}

/// The time from one moment to another.
fn elapsed(from: ScaledNs, to: ScaledNs) -> ScaledNs
    requires { FitsScaled (to -ℤ from) }
    ensures { result ≡ to -ℤ from }
{
    to.checked_sub(from).unwrap()
}

/// The rate of the responder's clock against the requester's, since an earlier exchange.
fn neighbor_rate(since: Option<Times>, t3: ScaledNs, t4: ScaledNs) -> Rate
    requires since { ForSome since AreTimes }
    requires t3 { IsCarriedTime t3 }
    requires t4 { IsTime t4 }
    ensures rate { result ≡ neighbor_rate since t3 t4 }
    ensures within { IsNeighborRate result }
{
    match since {
        Some(since) => Rate::of_elapsed(elapsed(since.t3, t3), elapsed(since.t4, t4)),
        None => Rate::new(0),
    }
}

/// The delay of the link, by what passed on both clocks.
fn mean_delay(rate: Rate, requester: ScaledNs, responder: ScaledNs) -> ScaledNs
    requires scaled { FitsScaled (scaled_by rate requester) }
    requires twice { FitsScaled (scaled_by rate requester -ℤ responder) }
    ensures { result ≡ mean_delay rate requester responder }
{
    elapsed(responder, rate.scale(requester).unwrap())
        .halve()
        .max(ScaledNs::default())
}
