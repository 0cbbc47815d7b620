//! Coverage on disks: what is covered in all that is known of the nodes that count is covered in each image of their disks, since
//! each image means something that is known.
#![tactic(auto)]

ghost use Rattle.std.specs.Prelude.{List};
ghost use Rattle.salus_types.specs.declared.names.NodeName.{NodeName};
ghost use Rattle.disk_model.specs.Disk.{History};
ghost use Rattle.schedule_text.specs.declared.schedule.Event.{Event};
ghost use Rattle.schedule_text.specs.declared.schedule.Volume.{Volume};
ghost use Rattle.salus_model.specs.Following.{Posted};
ghost use Rattle.salus_model.specs.Hearing.{Past};
ghost use Rattle.run_rules.specs.Knowing.{KnownNode};
ghost use Rattle.law_covered.specs.Coverage.{AreCovered, MayMean};
ghost use Rattle.image_coverage.specs.OnDisk.{DisksMean, OnDisks};

/// Does nothing: its clause is the law. The disks are given by their moments.
pub fn images_mean_what_is_known()
    ensures { (volume : Volume) (events : List Event) (posts : List Posted) (history : List Past) (known : NodeName → KnownNode) (disks : NodeName → History)
        → DisksMean volume.geometry known disks
        → AreCovered volume events posts history (MayMean volume events posts known)
        → AreCovered volume events posts history (OnDisks disks) }
{}
