//! The objects of a task.

ghost use Rattle.std.specs.Prelude.{◌≡◌, ◌++◌, IfOk, OnOk};

use plain_list::Text;
use ppddl_model::{ObjectDecl, Task};
use std::alloc::{AllocError, Global};

/// Puts copies of the declarations behind the objects.
fn add_objects(
    alloc: Global,
    objects: &mut Vec<ObjectDecl>,
    declared: &[ObjectDecl],
) -> Result<(), AllocError>
    ensures { OnOk result (objects.new.items ≡ objects.old.items ++ declared.now) }
{
    for object in declared {
        let name = Text::from_slice(alloc, object.name.as_slice())?;
        let kind = Text::from_slice(alloc, object.kind.as_slice())?;
        objects.push(ObjectDecl { name, kind })?;
    }
    Ok(())
}

/// The constants and objects of a task, constants first.
pub(super) fn objects_of_task(alloc: Global, task: &Task) -> Result<Vec<ObjectDecl>, AllocError>
    ensures { IfOk result (λ objects. objects.items
        ≡ task.now.domain.constants ++ task.now.problem.objects) }
{
    let mut objects = Vec::new(alloc);
    add_objects(alloc, &mut objects, task.domain.constants.as_slice())?;
    add_objects(alloc, &mut objects, task.problem.objects.as_slice())?;
    Ok(objects)
}
