//! Reading data blocks and making elements.

/// How the script finds elements, reads data blocks, and makes elements of texts that are never read as HTML.
pub const SCRIPT: &str = r##"const $ = id => document.getElementById(id);
// The text of a data block as it stands in the file, and what it says.
const raw = id => $(id).textContent;
const plain = text => decodeURIComponent(text);

// An element with properties and children. Texts become text nodes: nothing is ever read as HTML.
const h = (tag, properties, ...children) => {
  const made = document.createElement(tag);
  for (const name in properties) {
    if (name === 'role' || name.startsWith('aria-')) made.setAttribute(name, properties[name]);
    else made[name] = properties[name];
  }
  made.append(...children.flat().filter(child => child !== null && child !== ''));
  return made;
};
const svg = (tag, attributes, ...children) => {
  const made = document.createElementNS('http://www.w3.org/2000/svg', tag);
  for (const name in attributes) made.setAttribute(name, attributes[name]);
  made.append(...children);
  return made;
};

"##;
