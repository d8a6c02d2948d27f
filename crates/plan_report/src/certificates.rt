//! The certificate of what is known when a search has ended: the rows that say more than is known of their states at
//! first, in the form of a certificate of version 2.

mod acts;
mod atoms;
mod building;
mod kept;
mod kept_row;
mod numbering;
mod state_order;

pub use building::certificate_of;
