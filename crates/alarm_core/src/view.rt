//! What transitions are told with: the site, its classes and the properties.

use crate::Site;
use crate::detection::DetectedObject;
use bac_values::Transition;
use civil_stamp::LocalMoment;
use enrollment::Objects;
use event_services::WrittenNotification;
use notify_class::Class;
use std::marker::Model;

/// What the transitions of a look are told with: the site, its notification classes, the properties that the look saw, all
/// objects after it, and its moment.
#[derive(Drop)]
pub(crate) struct SiteView<'a> {
    pub(crate) site: &'a Site,
    pub(crate) classes: &'a [Class],
    pub(crate) objects: &'a Objects,
    pub(crate) alarms: &'a [DetectedObject],
    pub(crate) at: &'a LocalMoment,
}

impl<'a> Model for SiteView<'a> {
    ghost use Rattle.std.specs.Prelude.{◌≡◌};
    ghost use Rattle.alarm_core.specs.Evaluations.{site_zone};
    ghost use Rattle.alarm_core.specs.CoreSteps.{states_of};
    ghost use Rattle.alarm_core.specs.DueSteps.{AscendByObject};
    ghost use Rattle.alarm_core.specs.ListLimits.{InstancesAscend};
    ghost use Rattle.alarm_core.specs.Sites.{IsSite};
    ghost use Rattle.alarm_core.specs.ViewSteps.{SiteViewData};

    ghost Value = { SiteViewData };

    ghost view = { λ view. record {
      site = view.site.now;
      moment = view.at.now.moment;
      classes = view.classes.now;
      values = view.objects.now;
      states = states_of view.alarms.now;
    } };

    ghost invariant = { λ view. record {
      site : IsSite view.site.now;
      zone : view.at.now.zone ≡ site_zone view.site.now;
      ascending : AscendByObject view.alarms.now;
      classes : InstancesAscend view.classes.now;
    } };
}

/// A notification, and the class whose recipients are told where they want transitions of this kind.
#[derive(Drop)]
pub(crate) struct Addressed<'a> {
    pub(crate) class: &'a Class,
    pub(crate) kind: Transition,
    pub(crate) facts: WrittenNotification,
}

impl<'a> Model for Addressed<'a> {
    ghost use Rattle.alarm_core.specs.ViewSteps.{AddressedData};

    ghost Value = { AddressedData };

    ghost view = { λ told. record { class = told.class.now; kind = told.kind; facts = told.facts } };
}
