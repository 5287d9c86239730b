//! Lists of values.
ghost use Rattle.std.specs.Prelude.{◌≡◌, ◌++◌, OnOk, List, All};
ghost use Rattle.std.specs.List.{flat_map};
ghost use Rattle.eql_cut.specs.Formats.{list};
ghost use Rattle.eql_cut.specs.Reading.{ReadsList, ReadsTimes};
ghost use Rattle.eql_cut.specs.declared.reader.Version.TheVariants as version;

use crate::coded::Coded;
use crate::reader::{CutRefused, Reader, Version};
use std::alloc::{AllocError, Global};

pub(crate) fn write_list<T: Coded>(items: &[T], to: &mut Vec<u8>) -> Result<(), AllocError>
    requires { All T.ordered items.now }
    ensures text { OnOk result
        (to.new.items ≡ to.old.items ++ (list (T.format version.Four)).text items.now) }
    ensures fits { OnOk result ((list (T.format version.Four)).Fits items.now) }
{
    (items.len() as u64).write(to)?;
    write_each(items, to)
}

pub(crate) fn write_each<T: Coded>(items: &[T], to: &mut Vec<u8>) -> Result<(), AllocError>
    requires { All T.ordered items.now }
    ensures text { OnOk result
        (to.new.items ≡ to.old.items ++ flat_map (T.format version.Four).text items.now) }
    ensures fits { OnOk result (All (T.format version.Four).Fits items.now) }
{
    for item in items {
        item.write(to)?;
    }
    Ok(())
}

pub(crate) fn read_list<T: Coded + Drop>(
    from: &mut Reader,
    alloc: Global,
    of: Version,
) -> Result<Vec<T>, CutRefused>
    ensures { ReadsList (list (T.format of)) result from.old.left.now from.new.left.now }
{
    let count = u64::read(from, alloc, of)?;
    read_times(from, alloc, of, count)
}

fn read_times<T: Coded + Drop>(
    from: &mut Reader,
    alloc: Global,
    of: Version,
    count: u64,
) -> Result<Vec<T>, CutRefused>
    ensures { ReadsTimes (T.format of) count result from.old.left.now from.new.left.now }
{
    let mut items = Vec::new(alloc);
    for i in 0..count {
        items.push(T::read(from, alloc, of)?)?;
    }
    Ok(items)
}
