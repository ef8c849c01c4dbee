//! The certificate of a world: what each system says that it has chosen, and which are too far from their best to
//! follow it (profile).
//!
//! [`write_certificate`] asks the systems of a world, each for itself, and marks the far ones by what all say and by
//! the links between them: `specs/Stated.antt` says what each line then is. Where the world has been calm for long
//! enough, that is the settled choice of its snapshot (`specs/Settled.antt`). What a certificate is, its text, and how
//! that is read is gptp_certificate_text's.
#![tactic(auto)]

mod marking;
mod rounds;
mod stated;

pub use gptp_certificate_text::{
    Certificate, CertificateFault, SystemLine, parse, print, print_line,
};
pub use stated::write_certificate;
