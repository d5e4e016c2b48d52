//! What the ends of a run share: reading the instance, errors and exit statuses, the work of workers.
//!
//! Proved: map and points are read, or the first error is reported, in order, within the limits; where paths end at homes, each
//! agent starts at a parking; each error has one line and one status; an instance's text, with its rule, is fixed, and none is a prefix
//! of another's (`read_site`, `first_not_parked`, `read_kept_site`, `site_texts_differ`, `Trouble::text`, `client_work`).
#![tactic(auto)]

mod site;
mod trouble;
mod work;

pub use site::{
    KeptSite, MAP_LIMIT, POINTS_LIMIT, Site, first_not_parked, read_kept_site, read_site,
    section_trouble, site_texts_differ,
};
pub use trouble::{Status, Trouble};
pub use work::{ScriptFault, ScriptPlace, Work, agent_work, client_work, clock_work};
