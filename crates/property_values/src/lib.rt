//! What a property of an object is on the wire, from the object's data (ANSI/ASHRAE 135-2020, clause 12).
//!
//! What a property is stands in `Content`: one value, a list or an array. What is read of it is a part of that: the whole,
//! an element of an array, or an array's length.
#![tactic(auto)]

mod class_properties;
mod classes;
mod content;
mod device_properties;
mod device_site;
mod devices;
mod encoding;
mod log_properties;
mod logs;
mod objects;
mod reading;
mod texts;

pub use class_properties::ClassProperty;
pub use classes::{class_content, class_object};
pub use content::{Content, ReadFault};
pub use device_properties::DeviceProperty;
pub use device_site::DeviceSite;
pub use devices::{device_property, object_list, object_of_device};
pub use encoding::{
    array_of_stamps, boolean, enumerated, four_flags, object, reference_to, text, three_flags,
    unsigned,
};
pub use log_properties::LogProperty;
pub use logs::{log_content, log_takes, log_write};
pub use objects::row_content;
pub use reading::{part_of, size_of};
pub use texts::{array_of_texts, texts_that_came};
