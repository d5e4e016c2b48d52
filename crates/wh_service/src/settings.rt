//! The setting of a run, from the first two sections of the input and the option that says where paths end.

ghost use Rattle.std.specs.Prelude.{◌≡◌, ◌≤◌, IfErr, IfOk, length};
ghost use Rattle.wh_points.specs.Points.{IsLayout};
ghost use Rattle.wh_edge.specs.Site.{SiteFault, SiteKept, SiteRuled};

use std::alloc::Global;
use std::io::Read;
use std::sync::Arc;
use wh_continue::Setting;
use wh_edge::{Site, Trouble};
use wh_lines::Lines;

/// The setting of a site. The error is want of memory.
fn setting_of(alloc: Global, site: Site) -> Result<Setting, Trouble>
    requires layout { IsLayout site.grid site.points }
    ensures ok { IfOk result (λ setting. setting ≡ record { grid = site.grid; layout = site.points; homes = site.homes }) }
    ensures fault { IfErr result (λ told. told ≡ Trouble.NoMemory) }
{
    let Site {
        grid,
        points,
        homes,
    } = site;
    match Arc::new(alloc, grid) {
        Ok(grid) => Ok(Setting::with_homes(grid, points, homes)),
        Err(_) => {
            drop(points);
            Err(Trouble::NoMemory)
        }
    }
}

/// Reads a site, or tells the first thing that is wrong, as `wh_edge::read_site` does; the last is want of memory.
pub fn read_setting<R: Read>(
    lines: &mut Lines<R>,
    alloc: Global,
    homes: bool,
) -> Result<Setting, Trouble>
    ensures ok { IfOk result (SiteRuled homes lines.old lines.new) }
    ensures layout { IfOk result (λ setting. IsLayout setting.grid setting.layout) }
    ensures agents { IfOk result (λ setting. 1 ≤ length setting.layout.agents) }
    ensures fault { IfErr result (λ told. SiteFault homes told lines.old lines.new) }
{
    match wh_edge::read_site(lines, alloc, homes) {
        Ok(site) => setting_of(alloc, site),
        Err(trouble) => Err(trouble),
    }
}

/// A setting, and the text that keeps its site.
#[derive(Drop)]
pub struct KeptSetting {
    pub setting: Setting,
    pub text: Vec<u8>,
}

/// Reads a site, and gives the text that keeps it too, as `wh_edge::read_kept_site` does; the last that may be wrong is want of
/// memory.
pub fn read_kept_setting<R: Read>(
    lines: &mut Lines<R>,
    alloc: Global,
    homes: bool,
) -> Result<KeptSetting, Trouble>
    ensures ok { IfOk result (λ kept. SiteKept homes lines.old lines.new kept.setting kept.text.items) }
    ensures layout { IfOk result (λ kept. IsLayout kept.setting.grid kept.setting.layout) }
    ensures agents { IfOk result (λ kept. 1 ≤ length kept.setting.layout.agents) }
    ensures fault { IfErr result (λ told. SiteFault homes told lines.old lines.new) }
{
    let kept = match wh_edge::read_kept_site(lines, alloc, homes) {
        Ok(kept) => kept,
        Err(trouble) => return Err(trouble),
    };
    let text = kept.text;
    match setting_of(alloc, kept.site) {
        Ok(setting) => Ok(KeptSetting { setting, text }),
        Err(trouble) => {
            drop(text);
            Err(trouble)
        }
    }
}
