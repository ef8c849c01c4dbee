//! The three messages that measure a link read and written.

use crate::frames::written;
use crate::same::same;
use gptp_messages::{Head, Message, PdelayResp, PdelayRespFollowUp, decode};
use gptp_samples::{REQUEST, RESPONSE, RESPONSE_FOLLOW_UP, port};
use gptp_scaled::Stamp;
use std::test::Fail;

#[test]
fn the_first_request_is_read_and_written(rt: HostRuntime) -> Result<(), Fail> {
    let want = Head {
        source: port(1, 1),
        sequence: 0,
        correction: 0,
        log_interval: 0,
        two_step: false,
    };
    let Ok(Message::PdelayReq { head }) = decode(&REQUEST) else {
        panic!(rt; "no Pdelay_Req");
    };
    same(&rt, &head, &want);

    let text = written(&rt, rt.alloc(), &Message::PdelayReq { head: want })?;
    same(&rt, text.as_slice(), REQUEST.as_slice());
    Ok(())
}

#[test]
fn a_response_is_read_and_written(rt: HostRuntime) -> Result<(), Fail> {
    let want = PdelayResp {
        head: Head {
            source: port(0x1112_1314_1516_1718, 0x2122),
            sequence: 0x3132,
            correction: 0x0102_0304_0506_0708,
            log_interval: 127,
            two_step: true,
        },
        stamp: Stamp::new(0x4142_4344_4546, 0x1b2c_3d4e)?,
        requester: port(0x5152_5354_5556_5758, 0x6162),
    };
    let Ok(Message::PdelayResp(response)) = decode(&RESPONSE) else {
        panic!(rt; "no Pdelay_Resp");
    };
    same(&rt, response, want);

    let text = written(&rt, rt.alloc(), &Message::PdelayResp(want))?;
    same(&rt, text.as_slice(), RESPONSE.as_slice());
    Ok(())
}

#[test]
fn a_response_follow_up_is_read_and_written(rt: HostRuntime) -> Result<(), Fail> {
    let want = PdelayRespFollowUp {
        head: Head {
            source: port(0x9192_9394_9596_9798, 0xa1a2),
            sequence: 0xb1b2,
            correction: -98_304,
            log_interval: 127,
            two_step: false,
        },
        stamp: Stamp::new(0xc1c2_c3c4_c5c6, 999_999_999)?,
        requester: port(0xd1d2_d3d4_d5d6_d7d8, 0xe1e2),
    };
    let Ok(Message::PdelayRespFollowUp(response)) = decode(&RESPONSE_FOLLOW_UP) else {
        panic!(rt; "no Pdelay_Resp_Follow_Up");
    };
    same(&rt, response, want);

    let text = written(&rt, rt.alloc(), &Message::PdelayRespFollowUp(want))?;
    same(&rt, text.as_slice(), RESPONSE_FOLLOW_UP.as_slice());
    Ok(())
}
