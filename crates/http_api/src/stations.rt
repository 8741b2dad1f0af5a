//! What is replied of a station.

ghost use Rattle.std.specs.Prelude.{◌≡◌, ◌++◌, take, length, OnOk, OnErr};
ghost use Rattle.http_api.specs.Stations.{station_text, gap_members, name_members, zone_members};

use crate::json_texts::write_quoted;
use fixed_units::{NoMemory, RoundingArray, Text};
use office_inputs::Station;
use site_texts::write_site;

/// Adds the body for a station, of which a part may be added where memory runs out.
pub(crate) fn write_station(station: &Station, out: &mut Text) -> Result<(), NoMemory>
    ensures ok { OnOk result (out.new ≡ out.old ++ station_text station.now.station) }
    ensures err { OnErr result (take (length out.old) out.new ≡ out.old) }
{
    write_gap(station, out)?;
    write_name(station, out)?;
    write_zone(station, out)
}

/// Adds the array of discharges and the gap, of which a part may be added where memory runs out.
fn write_gap(station: &Station, out: &mut Text) -> Result<(), NoMemory>
    ensures ok { OnOk result (out.new ≡ out.old ++ gap_members station.now.station) }
    ensures err { OnErr result (take (length out.old) out.new ≡ out.old) }
{
    write_array(b"{\"discharge_array\":\"", station.discharge_array(), out)?;
    out.push_slice(b"\",\"gap\":")?;
    out.push_number(u64::from(station.gap()))
}

/// Adds the name and the site, of which a part may be added where memory runs out.
fn write_name(station: &Station, out: &mut Text) -> Result<(), NoMemory>
    ensures ok { OnOk result (out.new ≡ out.old ++ name_members station.now.station) }
    ensures err { OnErr result (take (length out.old) out.new ≡ out.old) }
{
    out.push_slice(b",\"name\":")?;
    write_quoted(station.name(), out)?;
    out.push_slice(b",\"site\":\"")?;
    write_site(station.site(), out)
}

/// Adds the array of stages, the zone and the end of the body, of which a part may be added where memory runs out.
fn write_zone(station: &Station, out: &mut Text) -> Result<(), NoMemory>
    ensures ok { OnOk result (out.new ≡ out.old ++ zone_members station.now.station) }
    ensures err { OnErr result (take (length out.old) out.new ≡ out.old) }
{
    write_array(b"\",\"stage_array\":\"", station.stage_array(), out)?;
    out.push_slice(b"\",\"zone\":")?;
    write_quoted(station.zone_text(), out)?;
    out.push_slice(b"}")
}

/// Adds an array behind the name of its member, of which a part may be added where memory runs out.
fn write_array(before: &[u8], array: &RoundingArray, out: &mut Text) -> Result<(), NoMemory>
    ensures ok { OnOk result (out.new ≡ out.old ++ (before.now ++ array.now)) }
    ensures err { OnErr result (take (length out.old) out.new ≡ out.old) }
{
    let digits = array.digits();
    out.push_slice(before)?;
    out.push_slice(&digits)
}
