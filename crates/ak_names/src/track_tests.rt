use super::*;
use ak_base::Text;
use std::alloc::{AllocError, Global};

// A text of its own.
fn text(alloc: Global, of: &str) -> Result<Text, AllocError> {
    let mut text = Text::new(alloc);
    text.push(alloc, of)?;
    Ok(text)
}

// The texts between the marks.
fn texts(alloc: Global, of: &str) -> Result<ak_base::Texts, AllocError> {
    let mut all = ak_base::Texts::new(alloc);
    if of.is_empty() {
        return Ok(all);
    }
    for part in of.split(';') {
        all.push(alloc, text(alloc, part)?)?;
    }
    Ok(all)
}

// Adds a name that is new to an index of a few.
fn add(alloc: Global, index: &mut Index, name: &Text) -> Result<(), AllocError> {
    if index.texts().len() >= 16 {
        return Ok(());
    }
    if index.id(name) == None {
        index.add(alloc, name)?;
    }
    Ok(())
}

// An index of these names.
fn index_of(alloc: Global, of: &str) -> Result<Index, AllocError> {
    let mut index = Index::new(alloc)?;
    for name in of.split(';') {
        add(alloc, &mut index, &text(alloc, name)?)?;
    }
    Ok(index)
}

// One key with the values between the marks.
fn asked(alloc: Global, key: &str, values: &str) -> Result<Wheres, AllocError> {
    let mut all = Wheres::new(alloc);
    if !key.is_empty() {
        all.push(
            alloc,
            KeyValues {
                key: text(alloc, key)?,
                values: texts(alloc, values)?,
            },
        )?;
    }
    Ok(all)
}

// The tracks as a text: each name, `:`, and its members with `,` behind each, and `;`.
fn written(alloc: Global, tracks: &Tracks) -> Result<String, AllocError> {
    let mut all = String::new(alloc);
    for track in tracks.as_slice() {
        all.push_str(track.name.as_str())?;
        all.push_str(":")?;
        for member in track.members.as_slice() {
            let number = *member;
            if number == u32::MAX {
                all.push_str("-,")?;
            } else {
                all.push_str(format!(in alloc; "{number},")?.as_str())?;
            }
        }
        all.push_str(";")?;
    }
    Ok(all)
}

const NAMES: &str =
    "cpu host=a zone=x;cpu host=b zone=x;mem host=a zone=x;cpu;cpu zone=y;mem;cpu host=c=d;disk host=a";

// The tracks of a metric, each series by itself, of which a key has one of the values.
fn tracked(alloc: Global, metric: &str, key: &str, values: &str) -> Result<String, AllocError> {
    let index = index_of(alloc, NAMES)?;
    let metric = text(alloc, metric)?;
    let wheres = asked(alloc, key, values)?;
    written(alloc, &index.tracks(alloc, &metric, &wheres, None)?)
}

// The same, of series that share the listed tags.
fn grouped(
    alloc: Global,
    metric: &str,
    key: &str,
    values: &str,
    tags: &str,
) -> Result<String, AllocError> {
    let index = index_of(alloc, NAMES)?;
    let metric = text(alloc, metric)?;
    let wheres = asked(alloc, key, values)?;
    let tags = texts(alloc, tags)?;
    written(alloc, &index.tracks(alloc, &metric, &wheres, Some(&tags))?)
}

// The tracks of a join.
fn joined(alloc: Global, metrics: &str, key: &str, values: &str) -> Result<String, AllocError> {
    let index = index_of(alloc, NAMES)?;
    let metrics = texts(alloc, metrics)?;
    let wheres = asked(alloc, key, values)?;
    written(alloc, &index.joined(alloc, &metrics, &wheres)?)
}

#[test]
fn each_series_is_a_track(rt: HostRuntime) -> Result<(), AllocError> {
    let told = tracked(rt.alloc(), "cpu", "", "")?;
    assert_eq!(rt;
        told.as_str(),
        "cpu host=a zone=x:0,;cpu host=b zone=x:1,;cpu:3,;cpu zone=y:4,;cpu host=c=d:6,;"
    );
    Ok(())
}

#[test]
fn series_of_one_tag_are_a_track(rt: HostRuntime) -> Result<(), AllocError> {
    let told = grouped(rt.alloc(), "cpu", "", "", "zone")?;
    assert_eq!(rt; told.as_str(), "cpu zone=x:0,1,;cpu:3,6,;cpu zone=y:4,;");
    Ok(())
}

#[test]
fn no_listed_tag_makes_one_track(rt: HostRuntime) -> Result<(), AllocError> {
    let told = grouped(rt.alloc(), "cpu", "", "", "")?;
    assert_eq!(rt; told.as_str(), "cpu:0,1,3,4,6,;");
    Ok(())
}

#[test]
fn a_tag_that_is_listed_twice_counts_once(rt: HostRuntime) -> Result<(), AllocError> {
    let told = grouped(rt.alloc(), "cpu", "host", "b;c=d;z", "zone;host;zone")?;
    assert_eq!(rt; told.as_str(), "cpu host=b zone=x:1,;cpu host=c=d:6,;");
    Ok(())
}

#[test]
fn no_value_admits_no_series(rt: HostRuntime) -> Result<(), AllocError> {
    let told = tracked(rt.alloc(), "cpu", "host", "")?;
    assert_eq!(rt; told.as_str(), "");
    Ok(())
}

#[test]
fn a_join_has_a_member_for_each_metric(rt: HostRuntime) -> Result<(), AllocError> {
    let told = joined(rt.alloc(), "mem;cpu", "", "")?;
    assert_eq!(rt;
        told.as_str(),
        "mem|cpu host=a zone=x:2,0,;mem|cpu host=b zone=x:-,1,;mem|cpu:5,3,;mem|cpu zone=y:-,4,;mem|cpu host=c=d:-,6,;"
    );
    Ok(())
}

#[test]
fn a_metric_without_series_is_a_hole(rt: HostRuntime) -> Result<(), AllocError> {
    let told = joined(rt.alloc(), "disk;mem;none", "host", "a")?;
    assert_eq!(rt;
        told.as_str(),
        "disk|mem|none host=a zone=x:-,2,-,;disk|mem|none host=a:7,-,-,;"
    );
    Ok(())
}
